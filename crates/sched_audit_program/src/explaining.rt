//! Why what was reported is a fault, or which line is refused and why.

use crate::text_again::TextAgain;
use audit_input::{Cause, KeepingFeed};
use fault_explainer::{explanation, quoted_line, refusal_words};
use recent_past::RecentPast;
use replay_model::FirstFault;
use sched_audit::{Color, Fault, Feed, Judgement, Outcome, Request, Source};
use std::alloc::Global;
use std::io;
use std::io::{ErrorKind, Write};
use std::rt::Files;

/// Begins a colour on a terminal, and ends it.
const COLOR: &[u8] = b"\x1b[36m";

const PLAIN: &[u8] = b"\x1b[0m";

/// What is written where a text can't be read a second time.
const NOT_EXPLAINED: &[u8] = b"# no explanation: the texts can't be read a second time\n";

/// Both texts, which went by.
#[derive(Drop)]
pub(crate) struct Texts<'a, R: Files, F, C> {
    trace: TextAgain<'a, R, F>,
    companion: TextAgain<'a, R, C>,
}

impl<'a, R: Files, F: Feed, C: Feed> Texts<'a, R, F, C> {
    /// Those of a request.
    pub(crate) fn of(
        rt: &'a R,
        alloc: Global,
        request: &Request<'a>,
        trace: &'a KeepingFeed<F>,
        companion: &'a KeepingFeed<C>,
    ) -> Texts<'a, R, F, C> {
        Texts {
            trace: TextAgain::new(rt, alloc, request.trace, trace),
            companion: TextAgain::new(rt, alloc, request.companion, companion),
        }
    }
}

/// Writes what there is to say of a fault or a refusal.
pub(crate) fn explain<J: Judgement, R: Files + Print, F: Feed, C: Feed>(
    rt: &R,
    alloc: Global,
    request: &Request<'_>,
    outcome: &Outcome<J>,
    past: &RecentPast,
    texts: &mut Texts<'_, R, F, C>,
) -> Result<(), Fault> {
    let told = told_of(alloc, outcome, past, texts)?;
    let told = match &told {
        Some(told) => told.as_bytes(),
        None => NOT_EXPLAINED,
    };
    if request.color == Color::Always {
        return write_colored(rt, told);
    }
    io::writer(rt).write_all(told).map_err(|_| Fault::Write)
}

/// Writes lines, each in colour.
fn write_colored<R: Print>(rt: &R, lines: &[u8]) -> Result<(), Fault> {
    let mut out = io::writer(rt);
    for line in lines.split_inclusive(|byte| *byte == b'\n') {
        let words = line.strip_suffix(b"\n").unwrap_or(line);
        for part in [COLOR, words, PLAIN, b"\n"] {
            out.write_all(part).map_err(|_| Fault::Write)?;
        }
    }
    Ok(())
}

/// What there is to say of a fault or a refusal. None where a text can't be read a second time.
fn told_of<J: Judgement, R: Files, F: Feed, C: Feed>(
    alloc: Global,
    outcome: &Outcome<J>,
    past: &RecentPast,
    texts: &mut Texts<'_, R, F, C>,
) -> Result<Option<String>, Fault> {
    match outcome {
        Outcome::Judged(judged) => match judged.fault() {
            Some(fault) => explained(alloc, &fault, past, &mut texts.trace),
            None => Ok(None),
        },
        Outcome::Text {
            source,
            line,
            cause,
        } => {
            let refused = Refusal {
                source: *source,
                cause: *cause,
                line: *line,
            };
            match *source {
                Source::Companion => refused.told(alloc, texts.companion.line_at(*line)),
                Source::Trace | Source::Join => refused.told(alloc, texts.trace.line_at(*line)),
            }
        }
    }
}

/// A refused line, and why.
#[derive(Clone, Copy)]
struct Refusal {
    source: Source,
    cause: Cause,
    line: u64,
}

impl Refusal {
    /// The line as it is shown, and why it is refused, where the text could be read a second time.
    fn told(
        self,
        alloc: Global,
        line: io::Result<Option<Vec<u8>>>,
    ) -> Result<Option<String>, Fault> {
        let Some(line) = reread(line)? else {
            return Ok(None);
        };
        let line = line.as_ref().map(|line| line.as_slice());
        let mut told = quoted_line(alloc, self.line, line)?;
        let words = refusal_words(alloc, self.source, self.cause, line)?;
        push_words(&mut told, words.as_str())?;
        Ok(Some(told))
    }
}

/// A fault's line, if it can be quoted, and how the fault comes about.
fn explained<R: Files, F: Feed>(
    alloc: Global,
    fault: &FirstFault,
    past: &RecentPast,
    trace: &mut TextAgain<'_, R, F>,
) -> Result<Option<String>, Fault> {
    let line = u64::from(fault.line);
    match quoted(alloc, line, trace.line_at(line))? {
        Some(quote) => {
            let mut told = quote;
            let text = explanation(alloc, past, fault, trace)?;
            push_words(&mut told, text.as_str())?;
            Ok(Some(told))
        }
        None => Ok(None),
    }
}

/// Says more behind what is told.
fn push_words(told: &mut String, words: &str) -> Result<(), Fault> {
    told.push_str(words).map_err(|_| Fault::Memory)
}

/// A line of this number, as it is shown, where the text could be read a second time. Want of memory is told.
fn quoted(
    alloc: Global,
    number: u64,
    line: io::Result<Option<Vec<u8>>>,
) -> Result<Option<String>, Fault> {
    match reread(line)? {
        Some(line) => {
            let line = line.as_ref().map(|line| line.as_slice());
            Ok(Some(quoted_line(alloc, number, line)?))
        }
        None => Ok(None),
    }
}

/// What was read a second time; none where that failed. Want of memory is told.
fn reread(line: io::Result<Option<Vec<u8>>>) -> Result<Option<Option<Vec<u8>>>, Fault> {
    match line {
        Ok(line) => Ok(Some(line)),
        Err(error) if error.kind() == ErrorKind::OutOfMemory => Err(Fault::Memory),
        Err(_) => Ok(None),
    }
}
