/// The greatest virtual runtime and the greatest floor, in virtual nanoseconds. The least is its negation.
pub const GREATEST_RUNTIME: i64 = 1 << 62;

/// The greatest pid of a task, as the kernel gives them out. The least is 1.
pub const GREATEST_PID: u64 = 4_194_304;

/// The pid of each processor's idle task. No task has it.
pub const IDLE_PID: u32 = 0;

/// The most processors of a machine.
pub const MOST_PROCESSORS: usize = 64;

/// The greatest number of a processor that a trace may name, from 0.
pub const GREATEST_PROCESSOR: u64 = 65_535;

/// The greatest number of a line, from 1.
pub const GREATEST_LINE: u64 = 4_294_967_295;

/// Stands in for the line of an event where there is none.
pub const NO_LINE: u32 = 0;

/// The greatest whole seconds of a time.
pub const GREATEST_SECONDS: u64 = 4_294_967_295;

/// The greatest value of a setting, in nanoseconds.
pub const GREATEST_SETTING: u64 = 1_000_000_000_000;

/// Nanoseconds in a second.
pub const NANOSECONDS_PER_SECOND: u64 = 1_000_000_000;
