/// Why the text of an event is refused, in the order of the tests.
#[derive(Clone, Copy, Debug, PartialEq, Eq)]
pub enum EventFault {
    /// The text doesn't have the fields of its event.
    BadFields,
    /// A pid is above 4194304, or a processor above 65535.
    NumberRange,
    /// A real-time or deadline task, or one of the kernel's `migration/N` threads: its prio is below 100.
    RealTime,
    /// A prio is above 139.
    PrioRange,
    /// The idle task is woken, born or migrated.
    IdleNamed,
}
