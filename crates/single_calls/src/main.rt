//! Makes single public calls for scripts. `single_calls CALL TRACE COMPANION` makes one on a recording and prints its
//! answers, `single_calls cuts STEP TRACE COMPANION [OPTIONS]` runs the audit on the beginnings of both texts, and
//! `single_calls blocks BLOCK WINDOW TRACE COMPANION [OPTIONS]` runs the one that reads both at once, by sizes. Behind
//! the word `time` the command line says what is timed, and last how often.
#![tactic(auto)]

mod blocks;
mod calls;
mod counting_gate;
mod cuts;
mod endings;
mod naming;
mod processor;
mod processor_calls;
mod readings;
mod record_calls;
mod stages;
mod stopwatch;
mod streamed;
mod texts;
mod timing;
mod tray;

use crate::blocks::print_in_blocks;
use crate::calls::print_call;
use crate::cuts::print_cuts;
use crate::endings::bad_words;
use crate::texts::Texts;
use crate::timing::print_times;
use std::process::ExitCode;
use std::{env, io};

fn main(rt: HostRuntime) -> io::Result<ExitCode> {
    let words: Vec<String> = env::args(&rt)?.collect(rt.alloc())?;
    match words.as_slice() {
        [_, time, rest @ ..] if time.as_str() == "time" => print_times(&rt, rest),
        [_, cuts, rest @ ..] if cuts.as_str() == "cuts" => print_cuts(&rt, rest),
        [_, blocks, block, rest @ ..] if blocks.as_str() == "blocks" => {
            print_in_blocks(&rt, block.as_str(), rest)
        }
        [_, call, trace, companion] => {
            let texts = Texts::read(&rt, trace.as_str(), companion.as_str())?;
            print_call(&rt, call.as_str(), &texts)
        }
        _ => bad_words(),
    }
}
