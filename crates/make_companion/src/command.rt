//! The command line, as clap reads it.

use amount_words::{Amount, amount_mistake};
use cfs_model::{Knobs, Setting};
use clap::error::ErrorKind;
use clap::{Arg, ArgMatches, Command, Error};
use companion_guess::{Strategy, Wishes};
use std::alloc::{AllocError, Global};
use std::convert::AsStr;

/// What a command line asks for.
#[derive(Clone, Copy, Debug)]
pub(crate) struct Request<'a> {
    /// The name of the trace's file, as given.
    pub trace: &'a str,
    /// The name of a file as `sched/debug` of debugfs, as given.
    pub debug: Option<&'a str>,
    pub wishes: Wishes,
}

impl Request<'_> {
    fn reads_input_twice(&self) -> bool {
        self.trace == "-" && self.debug == Some("-")
    }
}

/// What these words ask for; the first is the program's own name.
pub(crate) fn command_line<'a, S: AsStr>(
    alloc: Global,
    words: &'a [S],
) -> Result<Request<'a>, Error> {
    let mut command = command(alloc)?;
    let matches = command.try_get_matches_from_mut(words)?;
    match request_of(&matches) {
        Some(request) => {
            if request.reads_input_twice() {
                return Err(command.error(
                    ErrorKind::ArgumentConflict,
                    "standard input can't be both the trace and the file of --debug",
                )?);
            }
            Ok(request)
        }
        None => Err(mistake(alloc, &mut command, &matches)?),
    }
}

/// Why the values are no request.
fn mistake(
    alloc: Global,
    command: &mut Command<'_>,
    matches: &ArgMatches<'_>,
) -> Result<Error, AllocError> {
    match amount_mistake(alloc, matches, &Wishes::SETTINGS)? {
        Some(error) => Ok(error),
        None => command.error(
            ErrorKind::ValueValidation,
            "a strategy is one of kernel, best, low, high, picked and level",
        ),
    }
}

fn command<'a>(alloc: Global) -> Result<Command<'a>, AllocError> {
    let named = Command::new(alloc, "make_companion")
        .version("0.1.0")
        .about("Makes a companion for a recorded trace; sched_audit judges it")
        .after_help(
            "N is in nanoseconds, or has a unit: 3.4ms, 500us, 2s, 3e6. The name - is standard input.",
        )
        .bin_name("make_companion")?
        .arg(
            Arg::new(alloc, "TRACE")
                .required(true)
                .help("The recording: the file `trace` of tracefs"),
        )?
        .arg(
            Arg::new(alloc, "strategy")
                .long("strategy")
                .value_name("NAME")
                .help(
                    "How tasks are placed: kernel, or by guess: low, high, picked, level, best [default: kernel]",
                ),
        )?
        .arg(
            Arg::new(alloc, "debug")
                .long("debug")
                .value_name("FILE")
                .help(
                    "What sched/debug printed as the recording began: the floors (min_vruntime) at the start",
                ),
        )?;
    with_settings(alloc, named)
}

/// The command with an option for each setting that a companion is made by.
fn with_settings<'a>(alloc: Global, command: Command<'a>) -> Result<Command<'a>, AllocError> {
    let mut more = command;
    for setting in &Wishes::SETTINGS {
        more = more.arg(option_of(alloc, *setting))?;
    }
    Ok(more)
}

/// A setting's option, with a word that says an amount.
fn option_of(alloc: Global, setting: Setting) -> Arg<'static> {
    let name = setting.name();
    let help = setting.help();
    Arg::new(alloc, name).long(name).value_name("N").help(help)
}

/// The name and the wishes that the values are; None where one has no sense.
fn request_of<'a>(matches: &ArgMatches<'a>) -> Option<Request<'a>> {
    let strategy = match matches.get_str("strategy") {
        None => Some(Strategy::Kernel),
        Some("best") => None,
        Some(name) => Some(Strategy::of_name(name)?),
    };
    Some(Request {
        trace: matches.get_str("TRACE")?,
        debug: matches.get_str("debug"),
        wishes: Wishes {
            knobs: knobs_of(matches)?,
            strategy,
        },
    })
}

/// The settings that the values are, the others their defaults; None where one has no sense.
fn knobs_of(matches: &ArgMatches<'_>) -> Option<Knobs> {
    let mut knobs = Knobs::standard();
    for setting in &Wishes::SETTINGS {
        knobs = knobs.with(*setting, number_of(matches, *setting)?)?;
    }
    Some(knobs)
}

/// The nanoseconds of a setting, or its default where its option isn't given; None where its word says no amount.
fn number_of(matches: &ArgMatches<'_>, setting: Setting) -> Option<u64> {
    match matches.try_get_one::<Amount>(setting.name()) {
        Ok(Some(amount)) => Some(amount.nanoseconds),
        Ok(None) => Some(setting.standard()),
        Err(_) => None,
    }
}
