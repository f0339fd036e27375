//! Amounts of time as command lines say them: plain nanoseconds, or a decimal number and its unit.
#![tactic(auto)]

mod amount;
mod decimal;
mod fault;
mod mistake;
mod unit;

pub use amount::Amount;
pub use fault::AmountFault;
pub use mistake::amount_mistake;
