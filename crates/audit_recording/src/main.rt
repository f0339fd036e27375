//! `audit_recording TRACE`, with options: audits a recording in stretches, and prints a line for each.
#![tactic(auto)]

mod command;
mod ending;
mod hints;
mod keeping;
mod obeying;
mod progress;

use std::io::IsTerminal;
use std::process::ExitCode;

fn main(rt: HostRuntime) -> ExitCode {
    let tells = rt.stderr().is_terminal();
    let ending = obeying::obey(&rt, rt.alloc(), rt.stdin(), tells);
    if let Some(words) = ending.words() {
        let _ = eprintln!(rt; "audit_recording: {words}");
    }
    ExitCode::from(ending.code())
}
