//! Judges a recorded schedule, and writes what that comes to as one JSON object.
#![tactic(auto)]

mod json;
mod task_naming;

pub use json::{judge_json, run_json, run_json_named};
pub use report_json::{AsJson, NameTold, Told};
pub use task_naming::TaskNaming;
