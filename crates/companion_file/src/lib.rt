//! The companion of a trace: the state that a schedule starts from, the virtual runtimes that it claims, the changes of
//! nice values, who is of the idle policy, and the charges that are told.
#![tactic(auto)]

mod bad_line;
mod companion;
mod companion_reader;
mod draft;
mod fault;
mod fields;
mod idle_span;
mod known_lines;
mod laws;
mod limits;
mod lists;
mod reading;
mod reading_wide;
mod shapes;
mod spans;
mod statement;
mod usual_line;
mod version;

pub use companion::Companion;
pub use companion_reader::CompanionReader;
pub use fault::{CompanionCause, CompanionFault};
pub use idle_span::IdleSpan;
pub use laws::{one_companion_answer, same_in_both_versions, same_without_charges};
pub use lists::{Charges, Claims, Floors, Idles, Nices, Tasks};
pub use reading::read_companion;
pub use reading_wide::read_companion_wide;
pub use spans::IdleSpans;
pub use version::version_of_text;
