//! Books to which pages come one after another, and what they are then closed with.

use crate::answers::wants_about;
use crate::calls::{Told, record_of, stream_of, told};
use crate::machines::Recording;
use crate::shelf::OwnShelf;
use audit_crew::{AuditorFault, OpenGate, auditor};
use cfs_model::{Knobs, Setting};
use queue_replay::{Page, Reached, Replay, Tag};
use sched_record::{Record, Stream};
use std::alloc::Global;
use std::process::Abort;
use std::test::Fail;
use ticket_book::{Book, PostFault};

/// The slack of the standard settings.
pub(crate) const SLACK: u64 = 100_000;

/// A caller with a whole page.
pub(crate) const WHOLE: Bringer = Bringer::Caller(u64::MAX, SLACK);

/// A caller with a whole page that passes no idling beside a waiting task.
pub(crate) const STRICT: Bringer = Bringer::Caller(u64::MAX, 0);

/// An auditor that asks after each step.
pub(crate) const AUDITOR: Bringer = Bringer::Auditor(1);

/// Who brings the page of a processor.
#[derive(Clone, Copy)]
pub(crate) enum Bringer {
    /// A caller, by so many steps under settings with this slack.
    Caller(u64, u64),
    /// An auditor that asks for the least line after each so many steps.
    Auditor(u64),
}

/// The tag of a page, and the least line of a fault that the book answers to it, or why it is refused.
type Answer = (Tag, Result<u64, PostFault>);

/// A page that comes to a book: its processor, who brings it, how far it reached, and what the book answers.
type Coming = (u32, Bringer, Reached, Result<u64, PostFault>);

/// A book of so many processors, the pages that come to it one after another, and how many are made again where it is
/// closed.
pub(crate) struct Case {
    pub cpus: u32,
    pub comings: &'static [Coming],
    pub remade: u32,
}

/// A replay after so many steps.
fn page_after(replay: Replay, steps: u64) -> Result<Page, Fail> {
    let mut replay = replay;
    let _state = replay.go_on(steps)?;
    Ok(replay.page())
}

/// The page of a stream's replay by so many steps.
fn replayed(alloc: Global, stream: Stream, steps: u64, knobs: Knobs) -> Result<Page, Fail> {
    match Replay::new(alloc, stream, knobs) {
        Ok(replay) => page_after(replay, steps),
        Err((_stream, _memory)) => Err(Fail::from("memory suffices")),
    }
}

/// A book after a page, and what it answers.
fn posted(book: Book, page: Page) -> (Book, Answer) {
    let mut book = book;
    let tag = page.tag();
    match book.post(page) {
        Ok(least) => (book, (tag, Ok(least))),
        Err((_page, fault)) => (book, (tag, Err(fault))),
    }
}

/// The shelf over a book after the auditor of a stream, which asks after each so many steps, and what it answered.
fn audited(
    alloc: Global,
    book: Book,
    stream: Stream,
    stretch: u64,
) -> Result<(OwnShelf, Result<(), AuditorFault>), Fail> {
    if stretch == 0 {
        return Err(Fail::from("a stretch of some steps"));
    }
    let mut shelf = OwnShelf::new(book);
    let end = auditor(
        alloc,
        &mut shelf,
        &OpenGate,
        stream,
        Knobs::standard(),
        stretch,
    );
    Ok((shelf, end))
}

/// The tag of the page that came back to an auditor, and why it did.
fn page_back(end: Result<(), AuditorFault>) -> Result<Option<(Tag, PostFault)>, Fail> {
    match end {
        Ok(()) => Ok(None),
        Err(AuditorFault::Refused(page, fault)) => Ok(Some((page.tag(), fault))),
        Err(AuditorFault::Memory) => Err(Fail::from("memory suffices")),
    }
}

/// What the book answered to an auditor's page, which the shelf has accepted, or refused and given back.
fn answer_by(
    posted: Option<(Tag, u64)>,
    refused: Option<(Tag, PostFault)>,
    back: Option<(Tag, PostFault)>,
) -> Result<Answer, Fail> {
    match (posted, refused, back) {
        (Some((tag, least)), None, None) => Ok((tag, Ok(least))),
        (None, Some((tag, fault)), Some(page)) if page == (tag, fault) => Ok((tag, Err(fault))),
        _ => Err(Fail::from("a page that is posted, or comes back")),
    }
}

/// A shelf's book, and what it answered to the page of its auditor.
fn left_by(shelf: OwnShelf, back: Option<(Tag, PostFault)>) -> Result<(Book, Answer), Fail> {
    let OwnShelf {
        book,
        posted,
        answered,
        refused,
        ..
    } = shelf;
    Ok((book, answer_by(posted.zip(answered), refused, back)?))
}

/// A book after an auditor, and what it answers.
fn after_auditor(
    alloc: Global,
    book: Book,
    stream: Stream,
    stretch: u64,
) -> Result<(Book, Answer), Fail> {
    let (shelf, end) = audited(alloc, book, stream, stretch)?;
    left_by(shelf, page_back(end)?)
}

/// The standard settings with this slack.
fn knobs_with(slack: u64) -> Knobs {
    Knobs::standard()
        .with(Setting::Slack, slack)
        .unwrap_or(Knobs::standard())
}

/// A book after the page of a processor of a recording, and what it answers.
fn after(
    alloc: Global,
    book: Book,
    recording: &Recording,
    cpu: u32,
    bringer: Bringer,
) -> Result<(Book, Answer), Fail> {
    let stream = stream_of(alloc, recording, cpu)?;
    match bringer {
        Bringer::Caller(steps, slack) => {
            let page = replayed(alloc, stream, steps, knobs_with(slack))?;
            Ok(posted(book, page))
        }
        Bringer::Auditor(stretch) => after_auditor(alloc, book, stream, stretch),
    }
}

/// A book of one to three processors.
fn book_for(alloc: Global, cpus: u32) -> Result<Book, Fail> {
    if cpus != 1 && cpus != 2 && cpus != 3 {
        return Err(Fail::from("one to three processors"));
    }
    Ok(Book::new(alloc, cpus)?)
}

/// What a book is closed with.
fn closed(book: Book, record: &Record) -> Result<Told, Fail> {
    Ok(told(book.close(record, Knobs::standard())?))
}

/// The same on a recording.
fn closed_on(alloc: Global, book: Book, recording: &Recording) -> Result<Told, Fail> {
    let record = record_of(alloc, recording)?;
    closed(book, &record)
}

/// The book after the pages of a recording, each of which reaches and is answered what is wanted.
fn after_all<R: Abort>(
    rt: &R,
    alloc: Global,
    recording: &Recording,
    case: &Case,
) -> Result<Book, Fail> {
    let mut book = book_for(alloc, case.cpus)?;
    for (cpu, bringer, reached, wanted) in case.comings {
        let (next, answer) = after(alloc, book, recording, *cpu, *bringer)?;
        let tag = Tag {
            cpu: *cpu,
            reached: *reached,
        };
        wants_about(rt, recording.name, &answer, &(tag, *wanted));
        book = next;
    }
    Ok(book)
}

/// Ends the test where one of these books answers otherwise to the pages of a recording, or is closed otherwise on it.
pub(crate) fn wants_books<R: Abort>(
    rt: &R,
    alloc: Global,
    recording: &Recording,
    cases: &[Case],
) -> Result<(), Fail> {
    for case in cases {
        let told = closed_on(alloc, after_all(rt, alloc, recording, case)?, recording)?;
        wants_about(rt, recording.name, &told, &(case.remade, recording.fault));
    }
    Ok(())
}

/// A book of two processors with the whole pages of these recordings.
fn book_of(alloc: Global, first: &Recording, second: &Recording) -> Result<Book, Fail> {
    let (book, _answer) = after(alloc, book_for(alloc, 2)?, first, 0, WHOLE)?;
    let (book, _answer) = after(alloc, book, second, 1, WHOLE)?;
    Ok(book)
}

/// Ends the test where a book with the whole pages of two recordings is closed otherwise on a third than with its fault
/// and so many pages made again.
pub(crate) fn wants_remade<R: Abort>(
    rt: &R,
    alloc: Global,
    pages: (&Recording, &Recording),
    recording: &Recording,
    remade: u32,
) -> Result<(), Fail> {
    let told = closed_on(alloc, book_of(alloc, pages.0, pages.1)?, recording)?;
    wants_about(rt, recording.name, &told, &(remade, recording.fault));
    Ok(())
}

/// The words of a recording's auditor of processor 0 over a book that has a page of that processor.
pub(crate) fn words_of_second(alloc: Global, recording: &Recording) -> Result<String, Fail> {
    let stream = stream_of(alloc, recording, 0)?;
    let (book, _answer) = after(alloc, book_for(alloc, 2)?, recording, 0, WHOLE)?;
    let (_shelf, end) = audited(alloc, book, stream, 1)?;
    words_in(alloc, end)
}

/// The words of the fault of an auditor that tells one.
pub(crate) fn words_in(alloc: Global, end: Result<(), AuditorFault>) -> Result<String, Fail> {
    match end {
        Ok(()) => Err(Fail::from("a page that comes back")),
        Err(fault) => Ok(fault.to_string(alloc)?),
    }
}
