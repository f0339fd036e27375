//! Audits a recording as it comes: it is cut into stretches, and each is judged by a companion that is made for it.
#![tactic(auto)]

mod asked;
mod breach;
mod cause_words;
mod cut_cause;
mod cut_task;
mod escaping;
mod headline;
mod judging;
mod limits;
mod not_audited;
mod part;
mod piece;
mod real_time;
mod reporting;
mod scanning;
mod showing;
mod span;
mod splitting;
mod tally;
mod times;
mod watch;

pub use asked::Asked;
pub use cause_words::CauseWords;
pub use cut_cause::CutCause;
pub use cut_task::CutTask;
pub use headline::audit_recording;
pub use not_audited::NotAudited;
pub use part::{Cut, Part, Stretch, Told};
pub use reporting::report;
pub use tally::Tally;
pub use watch::Watch;
