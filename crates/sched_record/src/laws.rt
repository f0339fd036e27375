ghost use Rattle.std.specs.Prelude.{◌≡◌, ℕ, List, Result};
ghost use Rattle.cfs_model.specs.declared.act.Entry.{Entry};
ghost use Rattle.companion_file.specs.Companion.{CompanionView};
ghost use Rattle.sched_record.specs.Record.{RecordAnswer, RecordView};
ghost use Rattle.sched_record.specs.Trace.{TraceAnswer};
ghost use Rattle.sched_record.specs.declared.cause.TraceCause.{TraceCause};
ghost use Rattle.sched_record.specs.declared.joining.JoinCause.{JoinCause};

/// A law: a trace means one thing, its events or its first bad line.
pub fn one_trace_answer()
    ensures { (text : List ℕ) (a b : Result (List Entry) (ℕ × TraceCause)) → TraceAnswer text a → TraceAnswer text b
        → a ≡ b }
{
    ftrace_line::one_reading();
    sched_event::one_answer();
}

/// A law: joining gives one answer, the record or its first refusal.
pub fn one_record_answer()
    ensures { (events : List Entry) (companion : CompanionView) (a b : Result RecordView (ℕ × JoinCause)) →
        RecordAnswer events companion a → RecordAnswer events companion b → a ≡ b }
{}
