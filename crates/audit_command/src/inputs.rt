ghost use Rattle.std.specs.Prelude.{◌≡◌};

use crate::failure::Failure;
use crate::full_feed::FullFeed;
use crate::progress::{Lengths, Size, WatchedFeed};
use crate::terminals::Terminals;
use audit_input::{Fault, Feed, FeedOf, Keeping, KeepingFeed};
use audit_request::Request;
use given_texts::{Input, StandardInput, is_output, open_input};
use std::alloc::Global;
use std::io::Read;
use std::rt::{Files, Stdin};

/// The two inputs of an audit, of which nothing was read.
#[derive(Drop)]
pub struct Inputs<F> {
    pub trace: Input<F>,
    pub companion: Input<F>,
    pub lengths: Lengths,
}

impl<F> Inputs<F> {
    /// Whether the file of this name is an input's or the report's, which would be lost.
    fn overwritten_by<R: Files>(&self, rt: &R, name: &str) -> bool {
        self.trace.is_at(rt, name) || self.companion.is_at(rt, name) || is_output(rt, name)
    }
}

/// Opens the trace, then the companion. Neither may be the file of `--states`.
pub fn open_inputs<R: Files>(
    rt: &R,
    stdin: Stdin,
    request: &Request<'_>,
    terminals: Terminals,
) -> Result<Inputs<R::File>, Failure> {
    let mut standard = StandardInput::new(rt, stdin);
    let trace = open_input(rt, &mut standard, request.trace).map_err(|_| Fault::ReadTrace)?;
    let companion = open_input(rt, &mut standard, request.companion).map_err(
        |_| Fault::ReadCompanion,
    )?;
    let lengths = Lengths::of(&trace, &companion, terminals.errors);
    let inputs = Inputs {
        trace,
        companion,
        lengths,
    };
    match request.states {
        Some(name) if inputs.overwritten_by(rt, name) => Err(Failure::States),
        _ => Ok(inputs),
    }
}

/// An input whose progress is told.
pub fn watched_input<'a, R: Eprint, F: Read + Drop>(
    rt: &'a R,
    input: Input<F>,
    size: Size,
) -> WatchedFeed<'a, R, FeedOf<Input<F>>>
    ensures { ⟦<WatchedFeed<'a, R, FeedOf<Input<F>>> as Feed>⟧.calls result ≡ 0 }
{
    WatchedFeed::new(rt, FeedOf::new(input), size)
}

/// The same, read a full buffer at a time.
pub fn filled_input<'a, R: Eprint, F: Read + Drop>(
    rt: &'a R,
    input: Input<F>,
    size: Size,
) -> FullFeed<WatchedFeed<'a, R, FeedOf<Input<F>>>>
    ensures { ⟦<FullFeed<WatchedFeed<'a, R, FeedOf<Input<F>>>> as Feed>⟧.calls result ≡ 0 }
{
    FullFeed::new(watched_input(rt, input, size))
}

/// The same, of which lines can be read again: of what can't be opened a second time this is kept.
pub fn kept_input<'a, R: Eprint, F: Read + Drop>(
    rt: &'a R,
    alloc: Global,
    input: Input<F>,
    size: Size,
    keeping: Keeping,
) -> KeepingFeed<FullFeed<WatchedFeed<'a, R, FeedOf<Input<F>>>>>
    ensures { ⟦<KeepingFeed<FullFeed<WatchedFeed<'a, R, FeedOf<Input<F>>>>> as Feed>⟧.calls result ≡ 0 }
{
    let keeping = if input.is_regular() {
        Keeping::Nothing
    } else {
        keeping
    };
    KeepingFeed::new(alloc, filled_input(rt, input, size), keeping)
}
