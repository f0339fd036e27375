//! Auditors on threads: each replays the stream of one processor alone, and posts its page in the one book. What an
//! auditor needs of the book is a `Shelf`, and where it pauses between stretches is a `Gate`.
#![tactic(auto)]

mod auditing;
mod auditor_fault;
mod gate;
mod gathered;
mod locked_shelf;
mod member;
mod members;
mod reserved_shelf;
mod serial;
mod shared_book;
mod shelf;
mod threads;
mod underway;

pub use auditing::auditor;
pub use auditor_fault::AuditorFault;
pub use gate::{Gate, OpenGate};
pub use gathered::Gathered;
pub use serial::audit_serial;
pub use shelf::Shelf;
pub use threads::{audit, crew, least_settings};
