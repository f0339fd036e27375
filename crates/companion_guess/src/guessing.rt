use crate::draft::{Draft, better_draft, draft_of, kernel_draft};
use crate::kernel_values::KernelValues;
use crate::known::Known;
use crate::made::Made;
use crate::outset::Outset;
use crate::placements::Placements;
use crate::strategy::{STRATEGIES, Strategy};
use crate::wishes::Wishes;
use crate::writing::text_of;
use cfs_model::{Entry, Memory};
use std::alloc::Global;
use std::thread::{Threads, join};

/// The strategy that mostly needs the least granularity.
const MOSTLY_BEST: Strategy = Strategy::Picked;

/// The companion that the kernel's own values tell, or that the strategies find.
pub fn guessed(
    rt: &(impl Threads + Sync),
    alloc: Global,
    events: &[Entry],
    values: KernelValues,
    wishes: &Wishes,
) -> Result<Made, Memory> {
    if values.prints.is_empty() {
        let outset = Outset::of(alloc, events)?;
        let draft = best_of(alloc, &outset, events, wishes)?;
        return made_of(rt, alloc, &outset, &draft);
    }
    let prints = values.prints.as_slice();
    let (outset, placed) = join(
        rt,
        || Outset::of(alloc, events),
        || Placements::of(alloc, prints, events),
    );
    let (outset, (placements, first)) = (outset?, placed?);
    let known = Known::of(alloc, values, first);
    let draft = kernel_draft(alloc, &outset, events, wishes, known, placements)?;
    made_of(rt, alloc, &outset, &draft)
}

/// A draft with its text.
fn made_of(
    rt: &(impl Threads + Sync),
    alloc: Global,
    outset: &Outset,
    draft: &Draft,
) -> Result<Made, Memory> {
    let text = text_of(rt, alloc, outset, draft)?;
    let guess = Some(draft.candidate.guessed());
    Ok(Made { text, guess })
}

/// What the wanted strategy makes; where none of those that guess is named, the best.
fn best_of(
    alloc: Global,
    outset: &Outset,
    events: &[Entry],
    wishes: &Wishes,
) -> Result<Draft, Memory> {
    match wishes.strategy {
        None | Some(Strategy::Kernel) => (),
        Some(strategy) => return draft_of(alloc, outset, events, wishes, strategy),
    }
    // It goes first, so that the others are soon given up.
    let mut best = draft_of(alloc, outset, events, wishes, MOSTLY_BEST)?;
    for strategy in STRATEGIES {
        if *strategy == MOSTLY_BEST {
            continue;
        }
        if let Some(better) = better_draft(alloc, outset, events, wishes, *strategy, &best)? {
            best = better;
        }
    }
    Ok(best)
}
