//! What is known of a recording, both of whose texts are read a block at a time.
ghost use Rattle.std.specs.Prelude.{◌≡◌, ◌⊎◌, ◌≢◌, ◌++◌, ◌<◌, ◌≤◌, [], ℕ, Bool, List, Option, true, false, IfErr, IfOk};
ghost use Rattle.std.specs.Prelude.{IsNone, IsSome, MatchOption, OnErr, OnOk, drop, length, take};
ghost use Rattle.audit_input.specs.Known.{IsCutShort, most_reads};
ghost use Rattle.audit_input.specs.Texts.{TellsCharges};
ghost use Rattle.cfs_model.specs.Claimed.{Claimed};
ghost use Rattle.cfs_model.specs.Limits.{no_line};
ghost use Rattle.cfs_model.specs.declared.act.Entry.{Entry as Event};
ghost use Rattle.companion_file.specs.Earlier.{Said, summed};
ghost use Rattle.companion_file.specs.Reader.{HasNoStart};
ghost use Rattle.window_joining.specs.Joining.{edge_of};
ghost use Rattle.stream_audit.specs.Companion.{IsFedBy, IsPast};
ghost use Rattle.stream_audit.specs.Course.{AreEventsNext, AreJudged, CourseGoesOn, IsCalm, IsClosingOf, IsCourseOf};
ghost use Rattle.stream_audit.specs.Course.{IsDone, IsHandedOn, IsIdle, IsReadyFor, IsWholeCourse, JoinsNext};
ghost use Rattle.stream_audit.specs.Course.{StartStays, WereJudged};
ghost use Rattle.stream_audit.specs.Judge.{IsAllOf, IsAwaiting, begun};
ghost use Rattle.stream_audit.specs.Progress.{IsKnownOf};
ghost use Rattle.stream_audit.specs.declared.course.Course.{Course as CourseOf};
ghost use Rattle.least_places.specs.Finding.{IsFinding};
ghost use Rattle.sched_record.specs.Record.{RecordView};

use crate::companion_input::CompanionInput;
use crate::{Aim, Ending, JoinedEvents, Judge, Past};
use audit_input::{Fault, Feed};
use cfs_model::{Entry, Memory};
use companion_file::CompanionFault;
use least_places::Finding;
use std::alloc::Global;
use std::thread::Threads;
use window_joining::together;

/// A recording's companion so far, and the trace's events that were joined with it.
#[derive(Drop)]
pub(crate) struct Course {
    companion: CompanionInput,
    aim: Aim,
    /// None before the first event, and where the companion has no start.
    joined: Option<JoinedEvents>,
}

/// What a trace that can be read and a companion come to.
#[derive(Debug, Drop)]
pub(crate) enum Closing {
    /// The companion is refused.
    Refused(CompanionFault),
    /// Both can be read.
    Joined(Ending),
}

impl Course {
    /// Before the first event. A read of the companion will ask for at most so many bytes.
    pub fn new(alloc: Global, size: u32, aim: Aim) -> Course
        requires { 0 < size }
        ensures course { (gave : Option (List ℕ)) → IsCourseOf aim gave gave result (summed []) [] [] }
        ensures fed { IsFedBy 0 false false result.companion }
        ensures none { IsNone result.joined }
    {
        Course {
            companion: CompanionInput::new(alloc, size),
            aim,
            joined: None,
        }
    }

    /// Reads the companion until nothing more can be said of the lines of these events, which come next.
    fn read_past<C: Feed>(&mut self, companion: &mut C, events: &[Entry]) -> Result<(), Fault>
        requires fed { IsFedBy (C.calls companion.old) (C.has_ended companion.old) (C.has_failed companion.old)
            self.old.companion }
        ensures went { (gave : Option (List ℕ)) (said : Said) (before : List Event) (handed : List Claimed)
            → IsCourseOf self.old.aim gave (C.left companion.old) self.old said before handed
            → (0 < length events.now → AreEventsNext before events.now)
            → OnOk result (IsReadyFor self.old.aim gave (C.left companion.new) self.new before handed events.now
            × (IsCalm self.new → IsCalm self.old)) }
        ensures some { OnErr result (0 < length events.now) }
        ensures joined { self.new.joined ≡ self.old.joined }
        ensures aim { self.new.aim ≡ self.old.aim }
        ensures fed { OnOk result (IsFedBy (C.calls companion.new) (C.has_ended companion.new)
            (C.has_failed companion.new) self.new.companion) }
        ensures bounded { C.calls companion.new ≤ most_reads }
        ensures cut_short { IfErr result (λ e. ((e ≡ Fault.Memory) × (C.has_failed companion.new ≡ false))
            ⊎ ((e ≡ Fault.ReadCompanion) × IsCutShort (C.has_failed companion.new) (C.calls companion.new))) }
    {
        if events.is_empty() {
            return Ok(());
        }
        self.companion
            .read_past(companion, events[events.len() - 1].line)
    }

    /// Reads the companion past these events, which come next, and joins the first of them, so many at most. Says how
    /// many those are.
    pub fn join_next<C: Feed>(
        &mut self,
        alloc: Global,
        companion: &mut C,
        events: &[Entry],
        most: usize,
    ) -> Result<usize, Fault>
        requires fed { IsFedBy (C.calls companion.old) (C.has_ended companion.old) (C.has_failed companion.old)
            self.old.companion }
        requires next { (gave : Option (List ℕ)) × (said : Said) × (before : List Event) × (handed : List Claimed)
            × IsCourseOf self.old.aim gave (C.left companion.old) self.old said before handed
            × (0 < length events.now → AreEventsNext before events.now) }
        ensures joins { JoinsNext (C.left companion.old) (C.left companion.new) self.old self.new events.now result }
        ensures starts { OnOk result (StartStays self.old.joined self.new.joined) }
        ensures aim { self.new.aim ≡ self.old.aim }
        ensures within { IfOk result (λ count. count ≤ length events.now) }
        ensures some { OnErr result (0 < length events.now) }
        ensures fed { OnOk result (IsFedBy (C.calls companion.new) (C.has_ended companion.new)
            (C.has_failed companion.new) self.new.companion) }
        ensures bounded { C.calls companion.new ≤ most_reads }
        ensures cut_short { IfErr result (λ e. ((e ≡ Fault.Memory) × (C.has_failed companion.new ≡ false))
            ⊎ ((e ≡ Fault.ReadCompanion) × IsCutShort (C.has_failed companion.new) (C.calls companion.new))) }
    {
        self.read_past(companion, events)?;
        let count = self.join_first(alloc, events, most)?;
        Ok(count)
    }

    /// Joins the first of the events that come next, so many at most, and says how many those are. The companion was
    /// read past all of them.
    fn join_first(&mut self, alloc: Global, events: &[Entry], most: usize) -> Result<usize, Memory>
        requires { (gave : Option (List ℕ)) × (left : Option (List ℕ)) × (before : List Event)
            × (handed : List Claimed) × IsReadyFor self.old.aim gave left self.old before handed events.now }
        ensures ready { (gave : Option (List ℕ)) (left : Option (List ℕ)) (before : List Event) (handed : List Claimed)
            → IsReadyFor self.old.aim gave left self.old before handed events.now
            → IfOk result (λ count. IsReadyFor self.old.aim gave left self.new (before ++ take count events.now)
            handed (drop count events.now) × (IsCalm self.new → IsCalm self.old)) }
        ensures starts { OnOk result (StartStays self.old.joined self.new.joined) }
        ensures aim { self.new.aim ≡ self.old.aim }
        ensures within { IfOk result (λ count. count ≤ length events.now) }
        ensures some { OnErr result (0 < length events.now) }
        ensures fed { (calls : ℕ) (has_ended : Bool) (has_failed : Bool)
            → IsFedBy calls has_ended has_failed self.old.companion
            → IsFedBy calls has_ended has_failed self.new.companion }
    {
        let count = most.min(events.len());
        if count == 0 {
            return Ok(0);
        }
        self.go_on(alloc, &events[..count])?;
        Ok(count)
    }

    /// Joins events that come next, of which there is one at least, and lets go what was said of their lines. The
    /// companion was read past them.
    pub fn go_on(&mut self, alloc: Global, events: &[Entry]) -> Result<(), Memory>
        requires some { events.now ≢ [] }
        requires next { (gave : Option (List ℕ)) × (left : Option (List ℕ)) × (said : Said) × (before : List Event)
            × (handed : List Claimed) × IsCourseOf self.old.aim gave left self.old said before handed
            × AreEventsNext before events.now × IsPast (edge_of (before ++ events.now)) said self.old.companion }
        ensures went { (gave : Option (List ℕ)) (left : Option (List ℕ)) (said : Said) (before : List Event)
            (handed : List Claimed)
            → IsCourseOf self.old.aim gave left self.old said before handed → AreEventsNext before events.now
            → IsPast (edge_of (before ++ events.now)) said self.old.companion
            → OnOk result (IsCourseOf self.old.aim gave left self.new said (before ++ events.now) handed
            × (IsCalm self.new → IsCalm self.old)) }
        ensures past { (gave : Option (List ℕ)) (left : Option (List ℕ)) (said : Said) (before : List Event)
            (handed : List Claimed) (line : ℕ)
            → IsCourseOf self.old.aim gave left self.old said before handed → AreEventsNext before events.now
            → IsPast (edge_of (before ++ events.now)) said self.old.companion → IsPast line said self.old.companion
            → OnOk result (IsPast line said self.new.companion) }
        ensures starts { OnOk result (StartStays self.old.joined self.new.joined) }
        ensures aim { self.new.aim ≡ self.old.aim }
        ensures fed { (calls : ℕ) (has_ended : Bool) (has_failed : Bool)
            → IsFedBy calls has_ended has_failed self.old.companion
            → IsFedBy calls has_ended has_failed self.new.companion }
    {
        self.join(alloc, events)?;
        let line = events[events.len() - 1].line;
        self.companion.reader.forget_through(line);
        Ok(())
    }

    /// Joins events, where the companion isn't refused: its refusal comes before what the events are told to be.
    fn join(&mut self, alloc: Global, events: &[Entry]) -> Result<(), Memory>
        requires some { events.now ≢ [] }
        requires next { (gave : Option (List ℕ)) × (left : Option (List ℕ)) × (said : Said) × (before : List Event)
            × (handed : List Claimed) × IsCourseOf self.old.aim gave left self.old said before handed
            × AreEventsNext before events.now × IsPast (edge_of (before ++ events.now)) said self.old.companion }
        ensures went { (gave : Option (List ℕ)) (left : Option (List ℕ)) (said : Said) (before : List Event)
            (handed : List Claimed)
            → IsCourseOf self.old.aim gave left self.old said before handed → AreEventsNext before events.now
            → IsPast (edge_of (before ++ events.now)) said self.old.companion
            → OnOk result (IsCourseOf self.old.aim gave left self.new said (before ++ events.now) handed
            × (IsCalm self.new → IsCalm self.old)) }
        ensures starts { OnOk result (StartStays self.old.joined self.new.joined) }
        ensures aim { self.new.aim ≡ self.old.aim }
        ensures companion { self.new.companion ≡ self.old.companion }
    {
        self.begin(alloc)?;
        let reader = &self.companion.reader;
        if reader.is_bad() {
            return Ok(());
        }
        if let Some(joined) = &mut self.joined {
            let claims = reader.claims();
            joined.join(events, claims, reader.nices(), reader.charges())?;
        }
        Ok(())
    }

    /// Begins to join, where that hasn't begun and the companion has a start, of which nothing more can be said.
    fn begin(&mut self, alloc: Global) -> Result<(), Memory>
        ensures stays { (gave : Option (List ℕ)) (left : Option (List ℕ)) (said : Said) (events : List Event)
            (handed : List Claimed)
            → IsCourseOf self.old.aim gave left self.old said events handed → IsPast no_line said self.old.companion
            → OnOk result (IsCourseOf self.old.aim gave left self.new said events handed) }
        ensures begun { (gave : Option (List ℕ)) (left : Option (List ℕ)) (said : Said) (events : List Event)
            (handed : List Claimed)
            → IsCourseOf self.old.aim gave left self.old said events handed → IsNone self.new.companion.reader.bad
            → OnOk result (IsNone self.new.joined → HasNoStart said) }
        ensures same { OnOk result (IsSome self.old.joined → self.new.joined ≡ self.old.joined) }
        ensures handed_on { OnOk result (IsHandedOn self.old → IsHandedOn self.new) }
        ensures aim { self.new.aim ≡ self.old.aim }
        ensures companion { self.new.companion ≡ self.old.companion }
    {
        if self.joined.is_some() {
            return Ok(());
        }
        if let Some(start) = self.companion.reader.start()? {
            let joined = JoinedEvents::new(alloc, start)?;
            self.joined = Some(joined);
        }
        Ok(())
    }

    /// Whether nothing was found so far for which a text is refused.
    pub fn is_calm(&self) -> bool
        ensures calm { result ≡ true → IsCalm self.now }
        ensures found { result ≡ false → IsCalm self.now → ⊥ }
    {
        if self.companion.reader.is_bad() {
            return false;
        }
        match &self.joined {
            Some(joined) => !joined.is_refused(),
            None => true,
        }
    }

    /// Hands on what was joined, to a judge for whom none waits. The recent past is told of the beginning, if it keeps
    /// events.
    pub fn hand_on<P: Past>(
        &mut self,
        alloc: Global,
        judge: &mut Option<Judge>,
        past: &mut P,
    ) -> Result<(), Memory>
        requires { IsIdle judge.old }
        ensures went { (gave : Option (List ℕ)) (left : Option (List ℕ)) (said : Said) (events : List Event)
            (handed : List Claimed)
            → IsCourseOf self.old.aim gave left self.old said events handed → AreJudged self.old handed judge.old
            → OnOk result ((after : List Claimed) × IsCourseOf self.old.aim gave left self.new said events after
            × AreJudged self.new after judge.new) }
        ensures handed_on { OnOk result (IsHandedOn self.new) }
        ensures aim { self.new.aim ≡ self.old.aim }
        ensures companion { self.new.companion ≡ self.old.companion }
    {
        together();
        if let Some(joined) = &mut self.joined {
            begin_judging(alloc, joined, self.aim, judge, past)?;
            if let Some(judge) = judge {
                judge.take(joined);
            }
        }
        Ok(())
    }

    /// Lets the window go that was judged, or that waits in vain where something was found by now for which a text is
    /// refused. The recent past takes it, if it keeps events.
    pub fn let_go<P: Past>(
        &self,
        alloc: Global,
        calm: bool,
        judge: &mut Option<Judge>,
        past: &mut P,
    ) -> Result<(), Memory>
        requires { calm ≡ false → IsCalm self.now → ⊥ }
        ensures judged { (handed : List Claimed) → WereJudged self.now handed judge.old
            → OnOk result (AreJudged self.now handed judge.new) }
        ensures idle { OnOk result (IsIdle judge.new) }
    {
        if let Some(judge) = judge {
            match &self.joined {
                Some(joined) if calm => judge.let_go(alloc, joined.start(), past)?,
                _ => judge.skip(),
            }
        }
        Ok(())
    }

    /// Goes on by the next events of the trace, at most so many at once. The companion was read past them. None of
    /// those before them waits to be joined or handed on.
    pub fn go_through<R: Threads + Sync, P: Past>(
        &mut self,
        rt: &R,
        alloc: Global,
        events: &[Entry],
        most: usize,
        judge: &mut Option<Judge>,
        past: &mut P,
    ) -> Result<(), Memory>
        requires some { 0 < most }
        requires ready { (gave : Option (List ℕ)) × (left : Option (List ℕ)) × (before : List Event)
            × (handed : List Claimed) × IsReadyFor self.old.aim gave left self.old before handed events.now
            × AreJudged self.old handed judge.old }
        requires handed_on { IsHandedOn self.old }
        ensures went { (gave : Option (List ℕ)) (left : Option (List ℕ)) (before : List Event) (handed : List Claimed)
            → IsReadyFor self.old.aim gave left self.old before handed events.now
            → AreJudged self.old handed judge.old
            → OnOk result ((after : List Claimed)
            × CourseGoesOn self.old.aim gave left self.new (before ++ events.now) after
            × AreJudged self.new after judge.new) }
        ensures handed_on { OnOk result (IsHandedOn self.new) }
        ensures aim { self.new.aim ≡ self.old.aim }
        ensures fed { (calls : ℕ) (has_ended : Bool) (has_failed : Bool)
            → IsFedBy calls has_ended has_failed self.old.companion
            → IsFedBy calls has_ended has_failed self.new.companion }
    {
        let mut from = 0;
        while from < events.len() {
            let end = from + most.min(events.len() - from);
            self.go_further(rt, alloc, &events[from..end], judge, past)?;
            from = end;
        }
        Ok(())
    }

    /// Judges what waits, and goes on by a window's events, of which there is one at least.
    fn go_further<R: Threads + Sync, P: Past>(
        &mut self,
        rt: &R,
        alloc: Global,
        events: &[Entry],
        judge: &mut Option<Judge>,
        past: &mut P,
    ) -> Result<(), Memory>
        requires some { events.now ≢ [] }
        requires next { (gave : Option (List ℕ)) × (left : Option (List ℕ)) × (said : Said) × (before : List Event)
            × (handed : List Claimed) × IsCourseOf self.old.aim gave left self.old said before handed
            × AreEventsNext before events.now × IsPast (edge_of (before ++ events.now)) said self.old.companion
            × AreJudged self.old handed judge.old }
        ensures went { (gave : Option (List ℕ)) (left : Option (List ℕ)) (said : Said) (before : List Event)
            (handed : List Claimed)
            → IsCourseOf self.old.aim gave left self.old said before handed → AreEventsNext before events.now
            → IsPast (edge_of (before ++ events.now)) said self.old.companion
            → AreJudged self.old handed judge.old
            → OnOk result ((after : List Claimed)
            × IsCourseOf self.old.aim gave left self.new said (before ++ events.now) after
            × AreJudged self.new after judge.new) }
        ensures past { (gave : Option (List ℕ)) (left : Option (List ℕ)) (said : Said) (before : List Event)
            (handed : List Claimed) (line : ℕ)
            → IsCourseOf self.old.aim gave left self.old said before handed → AreEventsNext before events.now
            → IsPast (edge_of (before ++ events.now)) said self.old.companion → IsPast line said self.old.companion
            → OnOk result (IsPast line said self.new.companion) }
        ensures handed_on { OnOk result (IsHandedOn self.new) }
        ensures aim { self.new.aim ≡ self.old.aim }
        ensures fed { (calls : ℕ) (has_ended : Bool) (has_failed : Bool)
            → IsFedBy calls has_ended has_failed self.old.companion
            → IsFedBy calls has_ended has_failed self.new.companion }
    {
        self.judge(rt, alloc, judge, past)?;
        self.go_on(alloc, events)?;
        self.hand_on(alloc, judge, past)
    }

    /// Judges the window that waits, and lets it go.
    pub fn judge<R: Threads + Sync, P: Past>(
        &self,
        rt: &R,
        alloc: Global,
        judge: &mut Option<Judge>,
        past: &mut P,
    ) -> Result<(), Memory>
        requires { (handed : List Claimed) × AreJudged self.now handed judge.old }
        ensures judged { (handed : List Claimed) → AreJudged self.now handed judge.old
            → OnOk result (AreJudged self.now handed judge.new) }
        ensures idle { OnOk result (IsIdle judge.new) }
    {
        let calm = self.is_calm();
        judge_waiting(rt, alloc, calm, judge)?;
        self.let_go(alloc, calm, judge, past)
    }

    /// How much was found: that the companion is refused, and that both texts don't go together.
    pub fn findings(&self) -> u32 {
        let refused = u32::from(self.companion.reader.is_bad());
        match &self.joined {
            Some(joined) => refused.saturating_add(joined.rank()),
            None => refused,
        }
    }

    /// Reads the companion to its end.
    pub fn read_rest<C: Feed>(&mut self, companion: &mut C) -> Result<(), Fault>
        requires fed { IsFedBy (C.calls companion.old) (C.has_ended companion.old) (C.has_failed companion.old)
            self.old.companion }
        ensures went { (gave : Option (List ℕ)) (said : Said) (events : List Event) (handed : List Claimed)
            → IsCourseOf self.old.aim gave (C.left companion.old) self.old said events handed
            → OnOk result (CourseGoesOn self.old.aim gave (C.left companion.new) self.new events handed
            × (IsCalm self.new → IsCalm self.old)) }
        ensures joined { self.new.joined ≡ self.old.joined }
        ensures aim { self.new.aim ≡ self.old.aim }
        ensures fed { OnOk result (IsFedBy (C.calls companion.new) (C.has_ended companion.new)
            (C.has_failed companion.new) self.new.companion) }
        ensures done { OnOk result (self.new.companion.goes_on ≡ false) }
        ensures bounded { C.calls companion.new ≤ most_reads }
        ensures cut_short { IfErr result (λ e. ((e ≡ Fault.Memory) × (C.has_failed companion.new ≡ false))
            ⊎ ((e ≡ Fault.ReadCompanion) × IsCutShort (C.has_failed companion.new) (C.calls companion.new))) }
    {
        self.companion.read_rest(companion)
    }

    /// Whether the companion tells charges, once it was read to its end.
    pub fn tells_charges(&self) -> bool
        ensures { (text : List ℕ) → IsDone self.now.companion text → TellsCharges text result }
    {
        match self.companion.reader.version() {
            Some(version) => version == 3,
            None => false,
        }
    }

    /// What the trace's events and the companion come to, once both were read to their ends, all events were joined and
    /// handed on, and none waits to be judged.
    pub fn finish(&mut self, alloc: Global, judge: Option<Judge>) -> Result<Closing, Memory>
        requires { (text : List ℕ) × (events : List Event) × IsWholeCourse self.old.aim self.old text events judge }
        ensures { (text : List ℕ) (events : List Event) → IsWholeCourse self.old.aim self.old text events judge
            → IfOk result (IsClosingOf self.old.aim text events) }
    {
        together();
        if let Err(fault) = self.companion.reader.finish() {
            return Ok(Closing::Refused(fault));
        }
        self.begin(alloc)?;
        let reader = &self.companion.reader;
        match &self.joined {
            Some(joined) => {
                let apart = joined.finish(reader.claims(), reader.nices(), reader.charges());
                if let Some(fault) = apart {
                    return Ok(Closing::Joined(Ending::Apart(fault)));
                }
                let judge = judge_or_first(alloc, joined, self.aim, judge)?;
                Ok(Closing::Joined(Ending::Judged(finding_of(self.aim, judge))))
            }
            // A companion without a start is refused.
            None => unreachable!(),
        }
    }
}

/// Begins to judge what was joined, where that hasn't begun. The recent past is told of it, if it keeps events.
fn begin_judging<P: Past>(
    alloc: Global,
    joined: &JoinedEvents,
    aim: Aim,
    judge: &mut Option<Judge>,
    past: &mut P,
) -> Result<(), Memory>
    ensures awaiting { (handed : List Claimed)
        → MatchOption judge.old (handed ≡ []) (IsAwaiting (begun aim joined.now.start) handed)
        → OnOk result (MatchOption judge.new ⊥ (IsAwaiting (begun aim joined.now.start) handed)) }
    ensures idle { IsIdle judge.old → OnOk result (IsIdle judge.new) }
    ensures some { OnOk result (IsSome judge.new) }
{
    if judge.is_some() {
        return Ok(());
    }
    let first = Judge::new(alloc, joined.start(), aim)?;
    first.begin_past(alloc, joined.start(), past)?;
    *judge = Some(first);
    Ok(())
}

/// The judge for whom none waits, or the one before the first event.
fn judge_or_first(
    alloc: Global,
    joined: &JoinedEvents,
    aim: Aim,
    judge: Option<Judge>,
) -> Result<Judge, Memory>
    ensures { (handed : List Claimed) → IsIdle judge
        → MatchOption judge (handed ≡ []) (IsAwaiting (begun aim joined.now.start) handed)
        → IfOk result (λ found. IsKnownOf (begun aim joined.now.start) handed found.progress) }
{
    match judge {
        Some(judge) => Ok(judge),
        None => Ok(Judge::new(alloc, joined.start(), aim)?),
    }
}

/// What is found of a record of which all events were judged.
fn finding_of(aim: Aim, judge: Judge) -> Finding
    requires { (r : RecordView) × IsAllOf aim r judge }
    ensures { (r : RecordView) → IsAllOf aim r judge → IsFinding aim.least aim.knobs r result }
{
    // No sum is too great: the drift is a setting.
    let _drift = aim.knobs().drift();
    judge.into_progress().finish(aim)
}

/// Judges the window that waits, where nothing was found so far for which a text is refused.
pub(crate) fn judge_waiting<R: Threads + Sync>(
    rt: &R,
    alloc: Global,
    calm: bool,
    judge: &mut Option<Judge>,
) -> Result<(), Memory>
    requires { calm ≡ true → (course : CourseOf) × (handed : List Claimed) × IsCalm course
        × AreJudged course handed judge.old }
    ensures { (course : CourseOf) (handed : List Claimed) → (IsCalm course → calm ≡ true)
        → AreJudged course handed judge.old → OnOk result (WereJudged course handed judge.new) }
{
    match judge {
        Some(judge) if calm => judge.judge(rt, alloc),
        _ => Ok(()),
    }
}
