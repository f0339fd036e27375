//! The laws of a recording that comes as it is read: what is said of the events so far, while neither text is whole.
//! Each law is the contract of a function that does nothing. It names the file of `proofs` that carries it.
#![tactic(auto)]

ghost use Rattle.stream_laws.specs.SoFar.{EventsAreFew, RecordSoFar, TimesStayBelow};

/// The events so far are those of a record, though not all that the companion says has its event yet; and they are no
/// more than lines.
///
/// Carried by Prefix.
pub fn so_far()
    ensures record { RecordSoFar }
    ensures few { EventsAreFew }
    ensures times { TimesStayBelow }
{}
