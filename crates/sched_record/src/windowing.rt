ghost use Rattle.std.specs.Prelude.{◌≡◌, ◌<◌, ◌≤◌, length, slice_index_or, take, drop, OnOk};
ghost use Rattle.cfs_model.specs.Claimed.{claimed, with_claim};
ghost use Rattle.cfs_model.specs.declared.act.Entry.{Entry};
ghost use Rattle.sched_record.specs.RecordView.{policy_of};
ghost use Rattle.sched_record.specs.Record.{record_view};
ghost use Rattle.sched_record.specs.Window.{said_of, window_view};

use crate::on_line::{index_near, item_on};
use crate::record::Record;
use crate::window::{Saying, Window};
use cfs_model::Memory;

impl Record {
    /// Puts at most so many of the record's events, from one on, in place of what a window held.
    pub fn fill(&self, window: &mut Window, from: usize, most: usize) -> Result<(), Memory>
        requires { from ≤ length (record_view self.now).events }
        ensures { let r = record_view self.now in OnOk result (window_view window.new
            ≡ take most (drop from (claimed r.claims r.nices r.charges (policy_of r) r.events))) }
    {
        window.clear();
        let events = self.events();
        let end = from + most.min(events.len() - from);
        for index in from..end {
            window.add(&events[index], self.saying_at(index))?;
        }
        Ok(())
    }

    /// What the companion says on the line of an event, and the policy of the task that it bears or moves.
    fn saying_at(&self, event: usize) -> Saying
        requires { event < length (record_view self.now).events }
        ensures { let r = record_view self.now in (entry : Entry)
            → said_of (slice_index_or r.events event entry) result
            ≡ with_claim r.claims r.nices r.charges (policy_of r) (slice_index_or r.events event entry) }
    {
        let claims = self.claims();
        let nices = self.nices();
        let charges = self.charges();
        let entry = self.events()[event];
        let line = entry.line;
        let hint = self.trace().hint(u32::try_from(event).unwrap_or(u32::MAX));
        let claim = index_near(claims, 0, hint.claim, line);
        let nice = index_near(nices, 0, hint.nice, line);
        let charge = index_near(charges, 0, hint.charge, line);
        Saying {
            claim: item_on(claims, claim, line),
            nice: item_on(nices, nice, line),
            charge: item_on(charges, charge, line),
            policy: self.policy_at(event),
        }
    }
}
