ghost use Rattle.std.specs.Prelude.{◌≡◌, ◌<◌, ◌∷◌, length};
ghost use Rattle.std.specs.List.{before_first};
ghost use Rattle.cfs_model.specs.declared.policy.Policy.TheVariants.{Normal};
ghost use Rattle.text_parts.specs.Lines.{is_line_feed, lines_of};
ghost use Rattle.companion_file.specs.Shape.{cpus_line, start_line, floor_line, task_line, claim_line, nice_line};
ghost use Rattle.companion_file.specs.Shape.{charge_line};
ghost use Rattle.companion_file.specs.Draft.{AddsTested, KeepsOrder, TakesFirst, Takes};
ghost use Rattle.companion_file.specs.Statement.{stated};

use crate::draft::Draft;
use crate::fault::{CompanionCause, Refusal};
use crate::known_lines::{is_group, version_of};
use crate::limits::{change_within, charge_within, claim_within, is_value};
use crate::shapes::statement_of;
use crate::statement::Statement;
use crate::usual_line::{usual_charge, usual_fields};
use cfs_model::{ClaimSort, GREATEST_SECONDS, MOST_PROCESSORS, NANOSECONDS_PER_SECOND, Place};
use text_parts::lines::{is_comment, next_line};
use text_parts::pieces::after_front;
use text_parts::time::Time;

impl Draft {
    fn say_cpus(&mut self, count: u64) -> Result<(), Refusal>
        ensures { AddsTested self.old (cpus_line count) result self.new }
    {
        if self.cpus.is_some() {
            return Err(Refusal::Bad(CompanionCause::Order));
        }
        if count < 1 || count > MOST_PROCESSORS as u64 {
            return Err(Refusal::Bad(CompanionCause::NumberRange));
        }
        self.cpus = Some(count as u32);
        Ok(())
    }

    fn say_start(&mut self, time: Time) -> Result<(), Refusal>
        ensures { AddsTested self.old (start_line time.seconds time.nanoseconds) result self.new }
    {
        if self.cpus.is_none() || self.start.is_some() {
            return Err(Refusal::Bad(CompanionCause::Order));
        }
        if time.seconds > GREATEST_SECONDS {
            return Err(Refusal::Bad(CompanionCause::NumberRange));
        }
        self.start = Some(time.seconds * NANOSECONDS_PER_SECOND + time.nanoseconds);
        Ok(())
    }

    fn say_floor(&mut self, cpu: u64, floor: i64) -> Result<(), Refusal>
        ensures { AddsTested self.old (floor_line cpu floor) result self.new }
    {
        if self.start.is_none() || self.has_all_floors() {
            return Err(Refusal::Bad(CompanionCause::Order));
        }
        if !self.has_cpu(cpu) || !is_value(floor) {
            return Err(Refusal::Bad(CompanionCause::NumberRange));
        }
        if cpu != self.floors.len() as u64 {
            return Err(Refusal::Bad(CompanionCause::Order));
        }
        self.floors.push(floor)?;
        Ok(())
    }

    fn say_task(
        &mut self,
        pid: u64,
        nice: i64,
        cpu: u64,
        place: Place,
        v: i64,
    ) -> Result<(), Refusal>
        ensures { AddsTested self.old (task_line (record {
          pid = pid;
          nice = nice;
          policy = Normal;
          cpu = cpu;
          place = place;
          v = v;
        })) result self.new }
    {
        if !self.is_at_start() || !self.idles.is_empty() {
            return Err(Refusal::Bad(CompanionCause::Order));
        }
        let Some(task) = self.task_within(pid, nice, cpu, place, v) else {
            return Err(Refusal::Bad(CompanionCause::NumberRange));
        };
        if !self.is_pid_next(pid) {
            return Err(Refusal::Bad(CompanionCause::Order));
        }
        if !self.is_pid_new(pid) {
            return Err(Refusal::Bad(CompanionCause::TwiceNamed));
        }
        if !self.is_free(&task) {
            return Err(Refusal::Bad(CompanionCause::TwiceRunning));
        }
        self.add_task(task)
    }

    #[inline(always)]
    fn say_claim(&mut self, line: u64, pid: u64, v: i64, sort: ClaimSort) -> Result<(), Refusal>
        ensures { AddsTested self.old (claim_line (record { line = line; pid = pid; v = v; sort = sort })) result
            self.new }
    {
        if !self.has_all_floors() {
            return Err(Refusal::Bad(CompanionCause::Order));
        }
        let Some(claim) = claim_within(line, pid, v, sort) else {
            return Err(Refusal::Bad(CompanionCause::NumberRange));
        };
        if !self.may_claim_at(line) {
            return Err(Refusal::Bad(CompanionCause::LineOrder));
        }
        self.claims.reserve(1)?;
        self.claims.push_reserved(claim);
        Ok(())
    }

    #[inline(never)]
    fn say_nice(&mut self, line: u64, pid: u64, nice: i64) -> Result<(), Refusal>
        ensures { AddsTested self.old (nice_line (record { line = line; pid = pid; nice = nice })) result self.new }
    {
        if !self.has_all_floors() {
            return Err(Refusal::Bad(CompanionCause::Order));
        }
        let Some(change) = change_within(line, pid, nice) else {
            return Err(Refusal::Bad(CompanionCause::NumberRange));
        };
        if !self.may_change_at(line) {
            return Err(Refusal::Bad(CompanionCause::LineOrder));
        }
        self.nices.push(change)?;
        Ok(())
    }

    fn say_charge(&mut self, line: u64, pid: u64, v: i64) -> Result<(), Refusal>
        ensures { AddsTested self.old (charge_line (record { line = line; pid = pid; v = v })) result self.new }
    {
        if !self.has_all_floors() {
            return Err(Refusal::Bad(CompanionCause::Order));
        }
        let Some(charge) = charge_within(line, pid, v) else {
            return Err(Refusal::Bad(CompanionCause::NumberRange));
        };
        if !self.may_charge_at(line) {
            return Err(Refusal::Bad(CompanionCause::LineOrder));
        }
        self.charges.reserve(1)?;
        self.charges.push_reserved(charge);
        Ok(())
    }

    fn say(&mut self, statement: Statement) -> Result<(), Refusal>
        requires { KeepsOrder self.old }
        ensures { AddsTested self.old (stated statement) result self.new }
    {
        match statement {
            Statement::Version => Err(Refusal::Bad(CompanionCause::Order)),
            Statement::Cpus(count) => self.say_cpus(count),
            Statement::Start(time) => self.say_start(time),
            Statement::Floor { cpu, floor } => self.say_floor(cpu, floor),
            Statement::Task {
                pid,
                nice,
                cpu,
                place,
                v,
            } => self.say_task(pid, nice, cpu, place, v),
            Statement::Claim { line, pid, v, sort } => self.say_claim(line, pid, v, sort),
            Statement::Nice { line, pid, nice } => self.say_nice(line, pid, nice),
            Statement::Idle { line, pid } => self.say_idle(line, pid),
            Statement::Charge { line, pid, v } => self.say_charge(line, pid, v),
        }
    }

    fn take_first(&mut self, line: &[u8]) -> Result<(), Refusal>
        ensures { TakesFirst self.old line.now result self.new }
    {
        let Some(version) = version_of(line) else {
            return Err(Refusal::Bad(CompanionCause::Version));
        };
        self.version = Some(version);
        Ok(())
    }

    /// Takes the first line of a text, and answers with what follows that line, too.
    #[inline(always)]
    pub(crate) fn take_next<'a>(&mut self, text: &'a [u8]) -> (Result<(), Refusal>, &'a [u8])
        requires order { KeepsOrder self.old }
        requires some { 0 < length text.now }
        ensures taken { Takes self.old (before_first is_line_feed text.now) result.0 self.new }
        ensures lines { lines_of text.now ≡ before_first is_line_feed text.now ∷ lines_of result.1.now }
        ensures shorter { length result.1.now < length text.now }
    {
        if let Some(version) = self.version {
            if let Some(fields) = after_front(text, b"at ") {
                if let Some(claim) = usual_fields(fields) {
                    let said = self.say_claim(claim.line, claim.pid, claim.v, ClaimSort::At);
                    return (said, claim.rest);
                }
            } else if version >= 3
                && let Some(charge) = usual_charge(text)
            {
                let said = self.say_charge(charge.line, charge.pid, charge.v);
                return (said, charge.rest);
            }
        }
        let (line, rest) = next_line(text);
        (self.take(line), rest)
    }

    /// Takes the next line, without its line feed.
    pub(crate) fn take(&mut self, line: &[u8]) -> Result<(), Refusal>
        requires { KeepsOrder self.old }
        ensures { Takes self.old line.now result self.new }
    {
        if is_comment(line) {
            return Ok(());
        }
        let Some(version) = self.version else {
            return self.take_first(line);
        };
        if is_group(line) {
            return Err(Refusal::Bad(CompanionCause::Group));
        }
        let Some(statement) = statement_of(version, line) else {
            return Err(Refusal::Bad(CompanionCause::BadLine));
        };
        self.say(statement)
    }
}
