//! `make_companion TRACE`, with options: writes a companion for a recorded trace to standard output.
#![tactic(auto)]

mod audit_command;
mod cause_word;
mod command;
mod ending;
mod front_feed;
mod hints;
mod making;

use std::process::ExitCode;

fn main(rt: HostRuntime) -> ExitCode {
    let ending = making::obey(&rt, rt.alloc(), rt.stdin());
    if let Some(words) = ending.words() {
        let _ = eprintln!(rt; "make_companion: {words}");
    }
    ExitCode::from(ending.code())
}
