/// Where tasks are placed that are woken or born, within the bounds that the settings leave. Of two that need the same
/// granularity, the one that is named first is kept.
#[derive(Clone, Copy, Debug, PartialEq, Eq, PartialOrd, Ord)]
pub enum Strategy {
    /// A woken task as low as it may be, a new one as high.
    Low,
    /// Each as high as it may be.
    High,
    /// As low as it may be where it is the next to be picked at its processor, else as high.
    Picked,
    /// As near as may be to the least who waits, where it is the next to be picked at its processor, else as high.
    Level,
    /// As the kernel placed it, where the trace prints what it charged. Else the best of the others is taken.
    Kernel,
}

/// The strategies that guess, in their order.
pub const STRATEGIES: &[Strategy] = &[
    Strategy::Low,
    Strategy::High,
    Strategy::Picked,
    Strategy::Level,
];

impl Strategy {
    /// The word of a command line that names it.
    pub fn name(self) -> &'static str {
        match self {
            Strategy::Low => "low",
            Strategy::High => "high",
            Strategy::Picked => "picked",
            Strategy::Level => "level",
            Strategy::Kernel => "kernel",
        }
    }

    /// The strategy of this name, if there is one.
    pub fn of_name(name: &str) -> Option<Strategy> {
        match name {
            "low" => Some(Strategy::Low),
            "high" => Some(Strategy::High),
            "picked" => Some(Strategy::Picked),
            "level" => Some(Strategy::Level),
            "kernel" => Some(Strategy::Kernel),
            _ => None,
        }
    }
}
