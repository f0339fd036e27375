//! The least settings of a record, and where each of them is needed first.
#![tactic(auto)]

mod figures;
mod finding;
mod found;
mod laws;
mod leaving;
mod place;
mod places;
mod placing;

pub use figures::LeastFigures;
pub use finding::least_figures;
pub use found::Finding;
pub use laws::{fronts_need_less, one_least_figures};
pub use place::Place;
pub use places::Places;
