ghost use Rattle.std.specs.Prelude.{◌≡◌, ℕ, ◌≤◌, OnOk, OnErr, IfOk, IfErr};
ghost use Rattle.cfs_model.specs.Limits.{greatest_setting};
ghost use Rattle.replay_model.specs.Part.{IsLiftedPart, charged_part, told_part};
ghost use Rattle.replay_model.specs.QueueTests.{IsOutOfRange, IsWrongCharge};
ghost use Rattle.runqueue.specs.Queue.{HoldsSame, IsChargeFault, IsUnlifted, runqueue_view};
ghost use Rattle.runqueue.specs.Tasks.{CanBeCharged, CanBeChargedAs, IsChargeFaultOf, charged_as, charged_task};
ghost use Rattle.runqueue.specs.declared.runqueue.Runqueue.{Runqueue};

use crate::charging::{ChargeFault, charged, told};
use crate::runqueue::Runqueue;
use crate::sched_entity::SchedEntity;
use cfs_model::ChargeLine;

/// What a charge and its lift change of a runqueue.
#[derive(Clone, Copy)]
pub struct Unlifted {
    pub(crate) runner: Option<SchedEntity>,
    pub(crate) runner_row: usize,
    /// In virtual nanoseconds.
    pub(crate) floor: i64,
    /// In nanoseconds.
    pub(crate) mark: u64,
}

impl Runqueue {
    /// Charges who runs, up to this time, exactly or as told within a drift, in virtual nanoseconds; and raises the
    /// floor. Else what is wrong with the charge.
    #[inline(always)]
    pub fn lift(
        &mut self,
        time: u64,
        charge: Option<ChargeLine>,
        drift: u64,
    ) -> Result<(), ChargeFault>
        requires { drift ≤ greatest_setting }
        ensures in_range { OnOk result ((pid : ℕ) → IsOutOfRange (runqueue_view self.old) time pid → ⊥) }
        ensures told { OnOk result ((pid : ℕ) → IsWrongCharge drift (runqueue_view self.old) time charge pid → ⊥) }
        ensures lifted { OnOk result (IsLiftedPart time charge (runqueue_view self.old) (runqueue_view self.new)) }
        ensures fault { IfErr result (IsChargeFault drift (runqueue_view self.old) time charge) }
        ensures unlifted { OnErr result (runqueue_view self.new ≡ runqueue_view self.old) }
        ensures same { HoldsSame self.old self.new }
    {
        self.charge(time, charge, drift)?;
        if let Some(least) = self.least_queued() {
            self.floor = self.floor.max(least);
        }
        Ok(())
    }

    /// The same without the floor.
    #[inline(always)]
    fn charge(
        &mut self,
        time: u64,
        charge: Option<ChargeLine>,
        drift: u64,
    ) -> Result<(), ChargeFault>
        requires { drift ≤ greatest_setting }
        ensures in_range { OnOk result ((pid : ℕ) → IsOutOfRange (runqueue_view self.old) time pid → ⊥) }
        ensures told { OnOk result ((pid : ℕ) → IsWrongCharge drift (runqueue_view self.old) time charge pid → ⊥) }
        ensures charged { OnOk result
            (runqueue_view self.new ≡ told_part charge (charged_part (runqueue_view self.old) time)) }
        ensures fault { IfErr result (IsChargeFault drift (runqueue_view self.old) time charge) }
        ensures uncharged { OnErr result (runqueue_view self.new ≡ runqueue_view self.old) }
        ensures same { (self.new.tasks ≡ self.old.tasks) × (self.new.waiting ≡ self.old.waiting) }
    {
        let Some(task) = self.runner else {
            if let Some(line) = charge {
                return Err(ChargeFault::Told(line.pid));
            }
            self.mark = time;
            return Ok(());
        };
        match charge_of(task, time.saturating_sub(self.mark), charge, drift) {
            Ok(after) => {
                self.runner = Some(after);
                self.mark = time;
                Ok(())
            }
            Err(fault) => Err(fault),
        }
    }

    /// What the next lift changes, as it stands.
    #[inline(always)]
    pub fn unlifted(&self) -> Unlifted
        ensures { IsUnlifted self.now result }
    {
        Unlifted {
            runner: self.runner,
            runner_row: self.runner_row,
            floor: self.floor,
            mark: self.mark,
        }
    }

    /// Takes a charge and its lift back, where the map and the set of the runqueue hold what they did before.
    #[inline(always)]
    pub fn restore(&mut self, before: Unlifted)
        requires { (queue : Runqueue) × IsUnlifted queue before × HoldsSame queue self.old }
        ensures part { (queue : Runqueue) → IsUnlifted queue before → HoldsSame queue self.old
            → runqueue_view self.new ≡ runqueue_view queue }
        ensures pids { self.new.tasks.pids ≡ self.old.tasks.pids }
    {
        self.runner = before.runner;
        self.runner_row = before.runner_row;
        self.floor = before.floor;
        self.mark = before.mark;
    }
}

/// The task after a charge for `delta` nanoseconds, exact or as told within a drift. Else what is wrong with it.
#[inline(always)]
fn charge_of(
    task: SchedEntity,
    delta: u64,
    charge: Option<ChargeLine>,
    drift: u64,
) -> Result<SchedEntity, ChargeFault>
    requires { drift ≤ greatest_setting }
    ensures fits { IfOk result (λ after. CanBeCharged delta task
        × CanBeChargedAs drift charge task.v (charged_task delta task)
        × (after ≡ charged_as charge (charged_task delta task))) }
    ensures fault { IfErr result (IsChargeFaultOf drift delta charge task) }
{
    let own = task.v;
    match charged(task, delta) {
        Ok(exact) => match charge {
            None => Ok(exact),
            Some(line) => {
                let pid = line.pid;
                match told(own, exact, line, drift) {
                    Some(after) => Ok(after),
                    None => Err(ChargeFault::Told(pid)),
                }
            }
        },
        Err(pid) => Err(ChargeFault::Range(pid)),
    }
}
