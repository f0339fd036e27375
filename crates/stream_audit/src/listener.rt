ghost use Rattle.std.specs.Prelude.{◌≡◌, ◌⊎◌, ◌<◌, ◌≤◌, ℕ, Bool, List, Option, false, true};
ghost use Rattle.std.specs.Prelude.{IfErr, IfOk, OnOk, drop, length};
ghost use Rattle.std.specs.Thread.{IsSync};
ghost use Rattle.audit_input.specs.Known.{IsCutShort, most_reads};
ghost use Rattle.cfs_model.specs.Claimed.{Claimed};
ghost use Rattle.stream_audit.specs.Aim.{AimView};
ghost use Rattle.stream_audit.specs.Companion.{IsFedBy};
ghost use Rattle.stream_audit.specs.Course.{AreJudged, IsCalm, IsIdle, WereJudged};
ghost use Rattle.stream_audit.specs.Hearing.{IsHeard, IsPending, IsReady, input_of};
ghost use Rattle.stream_audit.specs.Listening.{EndsBoth, HasCome, HasHeardNothing, IsComing, IsReadBy, IsTakenOut};
ghost use Rattle.stream_audit.specs.Listening.{IsUnderWay};
ghost use Rattle.stream_audit.specs.declared.course.Course.{Course as CourseOf};

use crate::course::judge_waiting;
use crate::intake::Intake;
use crate::{Aim, Judge, Past, Sizes};
use audit_input::{Fault, Feed};
use cfs_model::Memory;
use std::alloc::Global;
use std::thread::{Threads, join_mut};
use window_audit::first_of_threads;

/// What was heard so far of two inputs that are read a block at a time: while a window is judged, the next one is made
/// of what comes in.
#[derive(Drop)]
pub(crate) struct Listener {
    pub intake: Intake,
    /// None before the first window is handed on.
    pub judge: Option<Judge>,
    /// Whether the next window is made while one is judged.
    ahead: bool,
}

impl Listener {
    /// Before the first read.
    pub fn new(alloc: Global, aim: Aim, sizes: Sizes) -> Listener
        ensures under_way { HasHeardNothing aim result }
        ensures reads { result.intake.blocks.source.reads ≡ 0 }
        ensures fed { IsFedBy 0 false false result.intake.course.companion }
    {
        Listener {
            intake: Intake::new(alloc, aim, sizes),
            judge: None,
            ahead: sizes.reads_ahead(),
        }
    }

    /// Judges the window that waits, makes the next one, and reads what comes in behind that. Says whether the trace
    /// goes on.
    pub fn go_on<R: Threads + Sync, T: Feed, C: Feed, P: Past>(
        &mut self,
        rt: &R,
        alloc: Global,
        trace: &mut T,
        companion: &mut C,
        past: &mut P,
    ) -> Result<bool, Fault>
        requires under_way { (aim : AimView) × (trace_gave : Option (List ℕ)) × (gave : Option (List ℕ))
            × IsUnderWay aim trace_gave (T.left trace.old) gave (C.left companion.old) self.old true }
        requires read { IsReadBy (T.left trace.old) (T.calls trace.old) (T.has_failed trace.old)
            (T.has_ended trace.old) self.old.intake.blocks true }
        requires fed { IsFedBy (C.calls companion.old) (C.has_ended companion.old) (C.has_failed companion.old)
            self.old.intake.course.companion }
        ensures under_way { (aim : AimView) (trace_gave : Option (List ℕ)) (gave : Option (List ℕ))
            → IsUnderWay aim trace_gave (T.left trace.old) gave (C.left companion.old) self.old true
            → IfOk result (IsUnderWay aim trace_gave (T.left trace.new) gave (C.left companion.new) self.new) }
        ensures read { IfOk result (IsReadBy (T.left trace.new) (T.calls trace.new) (T.has_failed trace.new)
            (T.has_ended trace.new) self.new.intake.blocks) }
        ensures read_on { OnOk result (self.old.intake.blocks.source.reads < self.new.intake.blocks.source.reads) }
        ensures taken { OnOk result (IsTakenOut self.new.intake) }
        ensures fed { OnOk result (IsFedBy (C.calls companion.new) (C.has_ended companion.new)
            (C.has_failed companion.new) self.new.intake.course.companion) }
        ensures reads { IfErr result (EndsBoth
            (input_of (T.left trace.new) (T.calls trace.new) (T.has_failed trace.new) (T.has_ended trace.new))
            (input_of (C.left companion.new) (C.calls companion.new) (C.has_failed companion.new)
            (C.has_ended companion.new))) }
    {
        trace.note_findings(self.findings());
        let calm = self.intake.course.is_calm();
        let (judged, came) = judge_and_come(
            rt,
            alloc,
            calm,
            &mut self.judge,
            &mut self.intake,
            trace,
            companion,
            self.ahead,
        );
        let goes_on = came?;
        judged?;
        self.hand_on(rt, alloc, calm, past)?;
        self.intake.take_next();
        Ok(goes_on)
    }

    /// How much was found for which a line of the trace is quoted, or of the companion.
    fn findings(&self) -> u32 {
        let told = match &self.judge {
            Some(judge) => judge.findings(),
            None => 0,
        };
        self.intake.findings().saturating_add(told)
    }

    /// Lets the window go that was judged, hands on what was joined meanwhile, and goes through what came beyond that.
    fn hand_on<R: Threads + Sync, P: Past>(
        &mut self,
        rt: &R,
        alloc: Global,
        calm: bool,
        past: &mut P,
    ) -> Result<(), Memory>
        requires calm { calm ≡ false → IsCalm self.old.intake.course → ⊥ }
        requires next { self.old.intake.next ≤ length self.old.intake.events.items }
        requires ready { (aim : AimView) × (gave : Option (List ℕ)) × (left : Option (List ℕ)) × (bytes : List ℕ)
            × (handed : List Claimed) × IsReady aim gave left bytes self.old.intake.reader self.old.intake.course
            handed (drop self.old.intake.next self.old.intake.events.items)
            × WereJudged self.old.intake.course handed self.old.judge }
        ensures heard { (aim : AimView) (gave : Option (List ℕ)) (left : Option (List ℕ)) (bytes : List ℕ)
            (handed : List Claimed) → IsReady aim gave left bytes self.old.intake.reader self.old.intake.course
            handed (drop self.old.intake.next self.old.intake.events.items)
            → WereJudged self.old.intake.course handed self.old.judge
            → OnOk result (IsHeard aim gave left bytes self.new.intake.reader self.new.intake.course
            self.new.judge) }
        ensures reader { self.new.intake.reader ≡ self.old.intake.reader }
        ensures blocks { self.new.intake.blocks ≡ self.old.intake.blocks }
        ensures fed { (calls : ℕ) (has_ended : Bool) (has_failed : Bool)
            → IsFedBy calls has_ended has_failed self.old.intake.course.companion
            → IsFedBy calls has_ended has_failed self.new.intake.course.companion }
    {
        let Listener { intake, judge, .. } = self;
        intake.course.let_go(alloc, calm, judge, past)?;
        intake.course.hand_on(alloc, judge, past)?;
        intake.go_through_rest(rt, alloc, judge, past)
    }

    /// Judges the last two windows, and reads the companion to its end. The trace has ended.
    pub fn read_rest<R: Threads + Sync, C: Feed, P: Past>(
        &mut self,
        rt: &R,
        alloc: Global,
        companion: &mut C,
        past: &mut P,
    ) -> Result<(), Fault>
        requires pending { (aim : AimView) × (gave : Option (List ℕ)) × (bytes : List ℕ) × (handed : List Claimed)
            × IsPending aim gave (C.left companion.old) bytes self.old.intake.reader self.old.intake.course handed
            self.old.intake.events.items × AreJudged self.old.intake.course handed self.old.judge }
        requires fed { IsFedBy (C.calls companion.old) (C.has_ended companion.old) (C.has_failed companion.old)
            self.old.intake.course.companion }
        ensures heard { (aim : AimView) (gave : Option (List ℕ)) (bytes : List ℕ) (handed : List Claimed)
            → IsPending aim gave (C.left companion.old) bytes self.old.intake.reader self.old.intake.course handed
            self.old.intake.events.items → AreJudged self.old.intake.course handed self.old.judge
            → OnOk result (IsHeard aim gave (C.left companion.new) bytes self.new.intake.reader
            self.new.intake.course self.new.judge) }
        ensures reader { self.new.intake.reader ≡ self.old.intake.reader }
        ensures idle { OnOk result (IsIdle self.new.judge) }
        ensures done { OnOk result (self.new.intake.course.companion.goes_on ≡ false) }
        ensures fed { OnOk result (IsFedBy (C.calls companion.new) (C.has_ended companion.new)
            (C.has_failed companion.new) self.new.intake.course.companion) }
        ensures bounded { C.calls companion.new ≤ most_reads }
        ensures cut_short { IfErr result (λ e. ((e ≡ Fault.Memory) × (C.has_failed companion.new ≡ false))
            ⊎ ((e ≡ Fault.ReadCompanion) × IsCutShort (C.has_failed companion.new) (C.calls companion.new))) }
    {
        self.join_last(rt, alloc, companion, past)?;
        let Listener { intake, judge, .. } = self;
        let course = &mut intake.course;
        course.judge(rt, alloc, judge, past)?;
        course.read_rest(companion)
    }

    /// Judges the window that waits, and joins and hands on the last events.
    fn join_last<R: Threads + Sync, C: Feed, P: Past>(
        &mut self,
        rt: &R,
        alloc: Global,
        companion: &mut C,
        past: &mut P,
    ) -> Result<(), Fault>
        requires pending { (aim : AimView) × (gave : Option (List ℕ)) × (bytes : List ℕ) × (handed : List Claimed)
            × IsPending aim gave (C.left companion.old) bytes self.old.intake.reader self.old.intake.course handed
            self.old.intake.events.items × AreJudged self.old.intake.course handed self.old.judge }
        requires fed { IsFedBy (C.calls companion.old) (C.has_ended companion.old) (C.has_failed companion.old)
            self.old.intake.course.companion }
        ensures heard { (aim : AimView) (gave : Option (List ℕ)) (bytes : List ℕ) (handed : List Claimed)
            → IsPending aim gave (C.left companion.old) bytes self.old.intake.reader self.old.intake.course handed
            self.old.intake.events.items → AreJudged self.old.intake.course handed self.old.judge
            → OnOk result (IsHeard aim gave (C.left companion.new) bytes self.new.intake.reader
            self.new.intake.course self.new.judge) }
        ensures reader { self.new.intake.reader ≡ self.old.intake.reader }
        ensures fed { OnOk result (IsFedBy (C.calls companion.new) (C.has_ended companion.new)
            (C.has_failed companion.new) self.new.intake.course.companion) }
        ensures bounded { C.calls companion.new ≤ most_reads }
        ensures cut_short { IfErr result (λ e. ((e ≡ Fault.Memory) × (C.has_failed companion.new ≡ false))
            ⊎ ((e ≡ Fault.ReadCompanion) × IsCutShort (C.has_failed companion.new) (C.calls companion.new))) }
    {
        let calm = self.intake.course.is_calm();
        judge_waiting(rt, alloc, calm, &mut self.judge)?;
        self.intake.join_last(alloc, companion)?;
        self.hand_on(rt, alloc, calm, past)?;
        Ok(())
    }
}

/// Judges the window that waits, makes the next one, reads the lines of the one behind that, and makes the reads for a
/// fourth one: beside each other, or one after the other. Both inputs stay in the caller's thread.
fn judge_and_come<R: Threads + Sync, T: Feed, C: Feed>(
    rt: &R,
    alloc: Global,
    calm: bool,
    judge: &mut Option<Judge>,
    intake: &mut Intake,
    trace: &mut T,
    companion: &mut C,
    ahead: bool,
) -> (Result<(), Memory>, Result<bool, Fault>)
    requires judged { calm ≡ true → (course : CourseOf) × (handed : List Claimed) × IsCalm course
        × AreJudged course handed judge.old }
    requires coming { (aim : AimView) × (trace_gave : Option (List ℕ)) × (gave : Option (List ℕ))
        × (handed : List Claimed)
        × IsComing aim trace_gave (T.left trace.old) gave (C.left companion.old) intake.old handed }
    requires read { IsReadBy (T.left trace.old) (T.calls trace.old) (T.has_failed trace.old)
        (T.has_ended trace.old) intake.old.blocks true }
    requires fed { IsFedBy (C.calls companion.old) (C.has_ended companion.old) (C.has_failed companion.old)
        intake.old.course.companion }
    ensures judged { (course : CourseOf) (handed : List Claimed) → (IsCalm course → calm ≡ true)
        → AreJudged course handed judge.old → OnOk result.0 (WereJudged course handed judge.new) }
    ensures came { (aim : AimView) (trace_gave : Option (List ℕ)) (gave : Option (List ℕ))
        (handed : List Claimed)
        → IsComing aim trace_gave (T.left trace.old) gave (C.left companion.old) intake.old handed
        → IfOk result.1 (HasCome aim trace_gave (T.left trace.new) gave (C.left companion.new) intake.old.course
        intake.new handed) }
    ensures read { IfOk result.1 (IsReadBy (T.left trace.new) (T.calls trace.new) (T.has_failed trace.new)
        (T.has_ended trace.new) intake.new.blocks) }
    ensures read_on { OnOk result.1 (intake.old.blocks.source.reads < intake.new.blocks.source.reads) }
    ensures next { OnOk result.1 (intake.new.next ≤ length intake.new.events.items) }
    ensures fed { OnOk result.1 (IsFedBy (C.calls companion.new) (C.has_ended companion.new)
        (C.has_failed companion.new) intake.new.course.companion) }
    ensures reads { IfErr result.1 (EndsBoth
        (input_of (T.left trace.new) (T.calls trace.new) (T.has_failed trace.new) (T.has_ended trace.new))
        (input_of (C.left companion.new) (C.calls companion.new) (C.has_failed companion.new)
        (C.has_ended companion.new))) }
{
    let alone = judge.is_none();
    if !ahead || !is_awaited(judge) {
        let judged = judge_waiting(rt, alloc, calm, judge);
        let came = intake.come(rt, alloc, trace, companion, alone, ahead);
        return (judged, came);
    }
    let first = first_of_threads(rt);
    let both = join_mut(
        rt,
        &mut ||
            requires judged { calm ≡ true → (course : CourseOf) × (handed : List Claimed) × IsCalm course
                × AreJudged course handed judge.now }
            ensures judged { (course : CourseOf) (handed : List Claimed) → (IsCalm course → calm ≡ true)
                → AreJudged course handed judge.entry.now → OnOk result (WereJudged course handed judge.exit.now) }
        { judge_waiting(rt, alloc, calm, judge) },
        &mut ||
            requires sync { IsSync R.row }
            requires coming { (aim : AimView) × (trace_gave : Option (List ℕ)) × (gave : Option (List ℕ))
                × (handed : List Claimed)
                × IsComing aim trace_gave (T.left trace.now) gave (C.left companion.now) intake.now handed }
            requires read { IsReadBy (T.left trace.now) (T.calls trace.now) (T.has_failed trace.now)
                (T.has_ended trace.now) intake.now.blocks true }
            requires fed { IsFedBy (C.calls companion.now) (C.has_ended companion.now) (C.has_failed companion.now)
                intake.now.course.companion }
            ensures came { (aim : AimView) (trace_gave : Option (List ℕ)) (gave : Option (List ℕ))
                (handed : List Claimed)
                → IsComing aim trace_gave (T.left trace.entry.now) gave (C.left companion.entry.now) intake.entry.now
                handed
                → IfOk result (HasCome aim trace_gave (T.left trace.exit.now) gave (C.left companion.exit.now)
                intake.entry.now.course intake.exit.now handed) }
            ensures read { IfOk result (IsReadBy (T.left trace.exit.now) (T.calls trace.exit.now)
                (T.has_failed trace.exit.now) (T.has_ended trace.exit.now) intake.exit.now.blocks) }
            ensures read_on { OnOk result (intake.entry.now.blocks.source.reads < intake.exit.now.blocks.source.reads) }
            ensures next { OnOk result (intake.exit.now.next ≤ length intake.exit.now.events.items) }
            ensures fed { OnOk result (IsFedBy (C.calls companion.exit.now) (C.has_ended companion.exit.now)
                (C.has_failed companion.exit.now) intake.exit.now.course.companion) }
            ensures reads { IfErr result (EndsBoth
                (input_of (T.left trace.exit.now) (T.calls trace.exit.now) (T.has_failed trace.exit.now)
                (T.has_ended trace.exit.now))
                (input_of (C.left companion.exit.now) (C.calls companion.exit.now) (C.has_failed companion.exit.now)
                (C.has_ended companion.exit.now))) }
        { intake.come(rt, alloc, trace, companion, alone, true) },
    );
    if let Some(first) = first {
        first.join(rt);
    }
    both
}

/// Whether a window waits to be judged: no thread is started to judge none.
fn is_awaited(judge: &Option<Judge>) -> bool {
    match judge {
        Some(judge) => judge.is_awaited(),
        None => false,
    }
}
