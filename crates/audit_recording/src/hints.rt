//! What is likely a mistake: said on standard error.
use cfs_model::Setting;
use given_texts::{KernelHint, has_event, is_overwritten, trace_hint};
use recording_audit::{Part, Told};

/// What is said of a companion that is given as the trace.
const OF_COMPANION: &str = "is a companion: the trace is named alone, and companions are made here";

/// Says what is likely a mistake in a recording that is refused.
pub(crate) fn say_of_refused<R: Eprint>(rt: &R, text: &[u8]) {
    if let Some(hint) = trace_hint(text, OF_COMPANION) {
        let _ = eprintln!(rt; "hint: the trace {hint}");
    }
    say_of_loss(rt, text);
}

/// Says what is likely a mistake in a recording that was audited.
pub(crate) fn say_of_audited<R: Eprint>(rt: &R, text: &[u8], parts: &[Part<'_>]) {
    say_of_loss(rt, text);
    if let Some(hint) = KernelHint::of_granularity(granularity_of_longest(parts)) {
        let _ = eprintln!(rt; "hint: {hint}");
    }
    if !has_event(text) {
        let _ = eprintln!(rt; "hint: the trace has no event of the scheduler");
    }
}

fn say_of_loss<R: Eprint>(rt: &R, text: &[u8]) {
    if is_overwritten(text) {
        let _ = eprintln!(rt;
            "hint: the trace misses events: its two numbers of entries differ, so the buffer was overwritten"
        );
    }
}

/// The granularity that the stretch with the most events needs; 0 where there is none. A short one behind a cut may
/// need much by the guess of its start alone.
fn granularity_of_longest(parts: &[Part<'_>]) -> u64 {
    let mut most = 0;
    let mut granularity = 0;
    for part in parts {
        if let Told::Stretch(stretch) = &part.told {
            if stretch.events > most {
                most = stretch.events;
                granularity = stretch.least.get(Setting::Granularity);
            }
        }
    }
    granularity
}
