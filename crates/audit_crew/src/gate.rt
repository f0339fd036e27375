/// Where an auditor passes before its first step and after each stretch of steps.
pub trait Gate: Sync {
    /// Lets the auditor of a processor go on, at once or later.
    fn enter(&self, cpu: u32);
}

/// The gate that holds nobody up.
#[derive(Clone, Copy, Debug)]
pub struct OpenGate;

impl Gate for OpenGate {
    /// Returns at once.
    fn enter(&self, _cpu: u32) {}
}
