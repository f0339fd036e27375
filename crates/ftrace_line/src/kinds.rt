/// The four events of the scheduler that are looked at.
#[derive(Clone, Copy, Debug, PartialEq, Eq, Drop)]
pub enum Which {
    Switch,
    Wakeup,
    WakeupNew,
    MigrateTask,
}

/// One of the four events, behind its line's head.
#[derive(Clone, Copy, Debug, PartialEq, Eq, Drop)]
pub struct Sched<'a> {
    /// The processor that the line's head names.
    pub cpu: u32,
    pub which: Which,
    /// In nanoseconds.
    pub time: u64,
    /// The event's fields: the line's bytes behind the event's name.
    pub rest: &'a [u8],
}

/// What a line of a trace is.
#[derive(Clone, Copy, Debug, PartialEq, Eq, Drop)]
pub enum Line<'a> {
    Comment,
    /// The kernel says that it lost events.
    Lost,
    /// An event that isn't one of the four.
    Other,
    Sched(Sched<'a>),
}
