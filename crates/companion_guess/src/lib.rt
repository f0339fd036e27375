//! Guesses at the companion of a trace alone. Nothing is proved of a guess.
#![tactic(auto)]

mod candidate;
mod companion_text;
mod course;
mod debug;
mod draft;
mod floors;
mod forecast;
mod guessing;
mod kernel_values;
mod known;
mod learnt;
mod line_text;
mod machine;
mod made;
mod named;
mod news;
mod next_prints;
mod opening;
mod outset;
mod pid_rows;
mod placement;
mod placements;
mod placing;
mod print;
mod printed;
mod prints;
mod processor;
mod sayings;
mod start;
mod strategy;
mod task_at;
mod tasks;
mod touching;
mod unsettled;
mod values;
mod wishes;
mod writing;

pub use debug::tells_floors;
pub use guessing::guessed;
pub use kernel_values::KernelValues;
pub use made::{Guessed, Made};
pub use prints::Prints;
pub use strategy::{STRATEGIES, Strategy};
pub use wishes::Wishes;
