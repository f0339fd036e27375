//! `sched_audit TRACE COMPANION`, with options: judges a recorded schedule and prints the report, in lines or as JSON,
//! and what is asked for beside it.
#![tactic(auto)]

mod command;
mod explaining;
mod fault_naming;
mod json_report;
mod keeping;
mod states;
mod streaming;
mod text_again;

use audit_command::Terminals;
use std::io::IsTerminal;
use std::process::ExitCode;

fn main(rt: HostRuntime) -> ExitCode {
    let terminals = Terminals {
        output: rt.stdout().is_terminal(),
        errors: rt.stderr().is_terminal(),
    };
    let ending = command::obey(&rt, rt.alloc(), rt.stdin(), terminals);
    ending.say(&rt);
    ExitCode::from(ending.code())
}
