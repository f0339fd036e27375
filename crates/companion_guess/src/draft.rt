use crate::candidate::Candidate;
use crate::course::Course;
use crate::known::Known;
use crate::learnt::Learnt;
use crate::news::News;
use crate::outset::Outset;
use crate::placements::Placements;
use crate::start::Start;
use crate::strategy::Strategy;
use crate::wishes::Wishes;
use cfs_model::{Entry, Memory};
use std::alloc::Global;

/// How often the events are gone through again at most, where placements turned out to be others.
const MOST_RETURNS: usize = 4;

/// What a companion says: who stands where at the start, and what the events do.
#[derive(Drop)]
pub(crate) struct Draft {
    pub start: Start,
    pub candidate: Candidate,
}

/// What a strategy makes of the events.
pub(crate) fn draft_of(
    alloc: Global,
    outset: &Outset,
    events: &[Entry],
    wishes: &Wishes,
    strategy: Strategy,
) -> Result<Draft, Memory> {
    let (known, placements) = nothing(alloc);
    let learnt = Learnt {
        known: &known,
        placements: &placements,
    };
    let made = Candidate::new(alloc, strategy, events.len())?;
    let mut course = Course::new(alloc, outset, events, wishes, made, learnt)?;
    course.go_through(outset, events, learnt)?;
    Ok(course.into_draft())
}

/// The same, where it is better than another.
pub(crate) fn better_draft(
    alloc: Global,
    outset: &Outset,
    events: &[Entry],
    wishes: &Wishes,
    strategy: Strategy,
    other: &Draft,
) -> Result<Option<Draft>, Memory> {
    let (known, placements) = nothing(alloc);
    let learnt = Learnt {
        known: &known,
        placements: &placements,
    };
    let made = Candidate::new(alloc, strategy, events.len())?;
    let mut course = Course::new(alloc, outset, events, wishes, made, learnt)?;
    if course.beats(outset, events, learnt, &other.candidate)? {
        Ok(Some(course.into_draft()))
    } else {
        Ok(None)
    }
}

/// What is known where the kernel told nothing.
fn nothing(alloc: Global) -> (Known, Placements) {
    (Known::nothing(alloc), Placements::none(alloc))
}

/// What the kernel's own values make of the events. Where no print tells a placement, what is found later tells what it
/// has to be; then the events are gone through again.
pub(crate) fn kernel_draft(
    alloc: Global,
    outset: &Outset,
    events: &[Entry],
    wishes: &Wishes,
    known: Known,
    placements: Placements,
) -> Result<Draft, Memory> {
    let (mut known, mut placements) = (known, placements);
    let mut made = Candidate::new(alloc, Strategy::Kernel, events.len())?;
    for returns in 0..MOST_RETURNS {
        let course = kernel_course(alloc, outset, events, wishes, made, &known, &placements)?;
        let news = course.machine.tell_asked(&mut known, &mut placements)?;
        if !is_worth_it(news, returns) {
            return Ok(course.into_draft());
        }
        made = course.into_draft().candidate.emptied();
    }
    let course = kernel_course(alloc, outset, events, wishes, made, &known, &placements)?;
    Ok(course.into_draft())
}

/// Whether to go through the events again, after so many returns. What events place elsewhere seldom asks for more than
/// it did at first.
fn is_worth_it(news: News, returns: usize) -> bool {
    match news {
        News::None => false,
        News::OfEvents => returns == 0,
        News::OfStart => true,
    }
}

/// The course through all events by what is known of the kernel's own values.
fn kernel_course(
    alloc: Global,
    outset: &Outset,
    events: &[Entry],
    wishes: &Wishes,
    made: Candidate,
    known: &Known,
    placements: &Placements,
) -> Result<Course, Memory> {
    let learnt = Learnt { known, placements };
    let mut course = Course::new(alloc, outset, events, wishes, made, learnt)?;
    course.go_through(outset, events, learnt)?;
    Ok(course)
}
