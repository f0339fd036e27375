//! What comes out of an audit as one JSON object, for scripts.
#![tactic(auto)]

mod as_json;
mod element;
mod faults;
mod least_settings;
mod name;
mod runs;
mod told;
mod waits;

pub use as_json::AsJson;
pub use name::NameTold;
pub use told::Told;
