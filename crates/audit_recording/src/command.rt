//! The command line, as clap reads it.

use amount_words::{Amount, amount_mistake};
use cfs_model::{Knobs, Setting};
use clap::error::ErrorKind;
use clap::{Arg, ArgMatches, Command, Error, value_parser};
use std::alloc::{AllocError, Global};
use std::convert::AsStr;

/// What a command line asks for.
#[derive(Clone, Copy, Debug)]
pub(crate) struct Request<'a> {
    /// The name of the trace's file, as given.
    pub trace: &'a str,
    /// The name of a file as `sched/debug` of debugfs, as given.
    pub debug: Option<&'a str>,
    /// The name of the folder that stretches are kept in, as given.
    pub out: Option<&'a str>,
    pub least_events: u64,
    pub limits: Knobs,
}

impl Request<'_> {
    fn reads_input_twice(&self) -> bool {
        self.trace == "-" && self.debug == Some("-")
    }
}

/// What these words ask for; the first is the program's own name.
pub(crate) fn command_line<'a, S: AsStr>(
    alloc: Global,
    words: &'a [S],
) -> Result<Request<'a>, Error> {
    let mut command = command(alloc)?;
    let matches = command.try_get_matches_from_mut(words)?;
    match request_of(&matches) {
        Some(request) => {
            if request.reads_input_twice() {
                return Err(command.error(
                    ErrorKind::ArgumentConflict,
                    "standard input can't be both the trace and the file of --debug",
                )?);
            }
            Ok(request)
        }
        None => Err(mistake(alloc, &mut command, &matches)?),
    }
}

/// Why the values are no request.
fn mistake(
    alloc: Global,
    command: &mut Command<'_>,
    matches: &ArgMatches<'_>,
) -> Result<Error, AllocError> {
    match amount_mistake(alloc, matches, &Setting::ALL)? {
        Some(error) => Ok(error),
        None => command.error(ErrorKind::ValueValidation, "a value is out of range"),
    }
}

fn command<'a>(alloc: Global) -> Result<Command<'a>, AllocError> {
    let named = Command::new(alloc, "audit_recording")
        .version("0.1.0")
        .about("Audits a recorded trace in stretches, each by a companion that is made for it")
        .after_help(
            "N of a setting is in nanoseconds, or has a unit: 3.4ms, 500us, 2s, 3e6. The name - is standard input.",
        )
        .bin_name("audit_recording")?
        .arg(
            Arg::new(alloc, "TRACE")
                .required(true)
                .help("The recording: the file `trace` of tracefs"),
        )?
        .arg(
            Arg::new(alloc, "out").long("out").value_name("FOLDER").help(
                "Writes each stretch and its companion into this folder, which has to be there",
            ),
        )?
        .arg(
            Arg::new(alloc, "min-events")
                .long("min-events")
                .value_name("N")
                .value_parser(value_parser!(u64))
                .help("Judges no stretch with fewer events [default: 1]"),
        )?
        .arg(
            Arg::new(alloc, "debug")
                .long("debug")
                .value_name("FILE")
                .help(
                    "What sched/debug printed as the recording began: the floors (min_vruntime) at the start",
                ),
        )?;
    with_limits(alloc, named)
}

/// The command with an option for each setting that may be limited.
fn with_limits<'a>(alloc: Global, command: Command<'a>) -> Result<Command<'a>, AllocError> {
    let mut more = command;
    for setting in &Setting::ALL {
        more = more.arg(limit_of(alloc, *setting))?;
    }
    Ok(more)
}

/// A setting's option, with a word that says an amount.
fn limit_of(alloc: Global, setting: Setting) -> Arg<'static> {
    let name = setting.name();
    let help = help_of_limit(setting);
    Arg::new(alloc, name).long(name).value_name("N").help(help)
}

/// What ends with status 1 where a setting is limited to N.
fn help_of_limit(setting: Setting) -> &'static str {
    match setting {
        Setting::Granularity => {
            "Status 1 where a picked task is more than N above the least virtual runtime (vruntime)"
        }
        Setting::Credit => {
            "Status 1 where a woken task is placed more than N below the floor (min_vruntime)"
        }
        Setting::Debit => {
            "Status 1 where a new task is placed more than N above the floor (min_vruntime)"
        }
        Setting::Slack => "Status 1 where a processor idles longer than N beside a waiting task",
        Setting::Drift => "Status 1 where charges stray more than N in sum from exact ones",
    }
}

/// What the values ask for; None where one has no sense.
fn request_of<'a>(matches: &ArgMatches<'a>) -> Option<Request<'a>> {
    Some(Request {
        trace: matches.get_str("TRACE")?,
        debug: matches.get_str("debug"),
        out: matches.get_str("out"),
        least_events: match matches.try_get_one::<u64>("min-events") {
            Ok(number) => number.unwrap_or(1),
            Err(_) => return None,
        },
        limits: limits_of(matches)?,
    })
}

/// The settings that no stretch may need more than, the greatest where none is named; None where one has no sense.
fn limits_of(matches: &ArgMatches<'_>) -> Option<Knobs> {
    let mut limits = Knobs::greatest();
    for setting in &Setting::ALL {
        if let Some(number) = number_of(matches, *setting)? {
            limits = limits.with(*setting, number)?;
        }
    }
    Some(limits)
}

/// The nanoseconds of a setting, where its option is given; None where its word says no amount.
fn number_of(matches: &ArgMatches<'_>, setting: Setting) -> Option<Option<u64>> {
    match matches.try_get_one::<Amount>(setting.name()) {
        Ok(Some(amount)) => Some(Some(amount.nanoseconds)),
        Ok(None) => Some(None),
        Err(_) => None,
    }
}
