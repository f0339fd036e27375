use cfs_model::{Act, Entry};

/// The number of processors that events touch: one more than the greatest, and at least 1.
pub(crate) fn processors_of(events: &[Entry]) -> u32 {
    let mut count = 1;
    for event in events {
        count = count.max(greatest_touched(event.act).saturating_add(1));
    }
    count
}

/// The greatest processor that an event touches.
fn greatest_touched(act: Act) -> u32 {
    let (home, dest) = act.ends();
    home.max(dest)
}
