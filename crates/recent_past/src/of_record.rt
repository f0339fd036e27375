use crate::RecentPast;
use cfs_model::{Knobs, Memory};
use queue_replay::WindowedReplay;
use replay_model::FirstFault;
use sched_record::{Record, Window, deal_start};
use std::alloc::Global;
use stream_audit::Past;

impl RecentPast {
    /// All that was before the first fault of a record which is kept, replayed under these settings.
    pub fn of_record(
        alloc: Global,
        joined: &Record,
        knobs: Knobs,
        fault: FirstFault,
    ) -> Result<RecentPast, Memory> {
        let mut past = RecentPast::new(alloc, knobs);
        past.note_start(alloc, joined, knobs)?;
        let mut window = Window::new(alloc);
        let count = joined
            .events()
            .partition_point(|event| event.line <= fault.line);
        joined.fill(&mut window, 0, count)?;
        past.take_last(joined.companion(), &mut window, fault)?;
        Ok(past)
    }

    /// Notes how the processors of a record stand at its start.
    fn note_start(&mut self, alloc: Global, joined: &Record, knobs: Knobs) -> Result<(), Memory> {
        let mut replays = Vec::new(alloc);
        for cpu in 0..joined.cpus() {
            let stream = deal_start(alloc, joined.companion(), cpu)?;
            replays.push(WindowedReplay::new(alloc, &stream, knobs)?)?;
        }
        let mut lent = Vec::new(alloc);
        for replay in &replays {
            lent.push(replay)?;
        }
        self.begin(joined.companion(), lent.as_slice())
    }
}
