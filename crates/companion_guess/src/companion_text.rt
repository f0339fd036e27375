use crate::line_text::LineText;
use cfs_model::{ChargeLine, Claim, ClaimSort, NiceLine, Place, Task};
use std::alloc::AllocError;

/// A companion while it is written. Each line is made by itself first.
#[derive(Drop)]
pub(crate) struct CompanionText {
    text: Vec<u8>,
    line: LineText,
}

impl CompanionText {
    /// The text begins with this.
    pub(crate) fn new(head: String) -> CompanionText {
        CompanionText {
            text: head.into_bytes(),
            line: LineText::new(),
        }
    }

    pub(crate) fn into_bytes(self) -> Vec<u8> {
        self.text
    }

    pub(crate) fn push_task(&mut self, task: &Task) -> Result<(), AllocError> {
        let place = match task.place {
            Place::Run => " run",
            Place::Wait => " wait",
            Place::Rest => " rest",
        };
        self.line.begin("task");
        self.line.push_number(task.pid);
        self.line.push_number(task.nice.get());
        self.line.push_number(task.cpu);
        self.line.push(place);
        self.line.push_number(task.v);
        self.end_line()
    }

    pub(crate) fn push_claim(&mut self, claim: &Claim) -> Result<(), AllocError> {
        let word = match claim.sort {
            ClaimSort::At => "at",
            ClaimSort::Pass => "pass",
        };
        self.line.begin(word);
        self.line.push_number(claim.line);
        self.line.push_number(claim.pid);
        self.line.push_number(claim.v);
        self.end_line()
    }

    pub(crate) fn push_charge(&mut self, charge: &ChargeLine) -> Result<(), AllocError> {
        self.line.begin("charge");
        self.line.push_number(charge.line);
        self.line.push_number(charge.pid);
        self.line.push_number(charge.v);
        self.end_line()
    }

    pub(crate) fn push_change(&mut self, change: &NiceLine) -> Result<(), AllocError> {
        self.line.begin("nice");
        self.line.push_number(change.line);
        self.line.push_number(change.pid);
        self.line.push_number(change.nice.get());
        self.end_line()
    }

    fn end_line(&mut self) -> Result<(), AllocError> {
        self.text.extend_from_slice(self.line.end())
    }
}
