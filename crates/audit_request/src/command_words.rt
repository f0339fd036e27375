//! The command line, as clap reads it.

ghost use Rattle.std.specs.Bool.{OnTrue};
ghost use Rattle.std.specs.Prelude.{◌≡◌, ◌&&◌, IfOk, IfSome, None, Some, codes, false, map, option_map};
ghost use Rattle.std.specs.Prelude.{unwrap_or};
ghost use Rattle.clap.specs.Walk.{first_of};
ghost use Rattle.clap.specs.Words.{app_of, found_of, rows_of, rule_of};
ghost use Rattle.cfs_model.specs.Knobs.{AreInRange, all_settings, nothing, settings_by};
ghost use Rattle.audit_request.specs.CommandLine.{HasNoSetting, HaveAmounts, HaveNone, IsAskedBy, IsRequestOf};
ghost use Rattle.audit_request.specs.CommandLine.{amount_for, audit_app, beside_none, color_for, flag_rule};
ghost use Rattle.audit_request.specs.CommandLine.{is_flagged, is_input, lone_flag_rule, name_rule};
ghost use Rattle.audit_request.specs.CommandLine.{parted_flag_rule, setting_of, setting_rule, with_flags, with_names};
ghost use Rattle.audit_request.specs.CommandLine.{with_settings, with_values, with_words, word_rule};

use crate::{Color, Request};
use amount_words::{Amount, amount_mistake};
use cfs_model::{Amounts, Knobs, Setting};
use clap::error::ErrorKind;
use clap::{Arg, ArgAction, ArgMatches, Command, Error};
use std::alloc::{AllocError, Global};
use std::convert::AsStr;

/// What these words ask for; the first is the program's own name.
pub fn command_line<'a, S: AsStr>(alloc: Global, words: &'a [S]) -> Result<Request<'a>, Error>
    ensures { IfOk result (IsAskedBy (map S.text words.now)) }
{
    let mut command = command(alloc)?;
    let matches = command.try_get_matches_from_mut(words)?;
    match request_of(&matches) {
        Some(request) => Ok(request),
        None => Err(mistake(alloc, &mut command, &matches)?),
    }
}

/// Why the values are no request.
fn mistake(
    alloc: Global,
    command: &mut Command<'_>,
    matches: &ArgMatches<'_>,
) -> Result<Error, AllocError> {
    match amount_mistake(alloc, matches, &Setting::ALL)? {
        Some(error) => Ok(error),
        None if color_for(matches).is_none() => command.error(
            ErrorKind::InvalidValue,
            "the value of '--color <WHEN>' is auto, always or never",
        ),
        // clap has tested all else that is tested again there.
        None => command.error(
            ErrorKind::ArgumentConflict,
            "standard input can't be both the trace and the companion",
        ),
    }
}

/// The two names, the settings, the flags, the file of states, the colour, and what clap adds: help and the version.
fn command<'a>(alloc: Global) -> Result<Command<'a>, AllocError>
    ensures { IfOk result (λ command. app_of command ≡ audit_app) }
{
    let named = with_names(alloc, Command::new(alloc, "sched_audit"))?;
    let set = with_settings(alloc, named, &Setting::ALL)?;
    with_words(alloc, with_flags(alloc, set)?)
}

/// The command with the names of the two files, and what it says of itself.
fn with_names<'a>(alloc: Global, command: Command<'a>) -> Result<Command<'a>, AllocError>
    ensures { IfOk result (λ more. app_of more ≡ with_names (app_of command.entry)) }
{
    command
        .version("0.1.0")
        .about("Judges a recorded CFS schedule: a run, or its first fault")
        .after_help(
            "N is in nanoseconds, or has a unit: 3.4ms, 500us, 2s, 3e6. The name - is standard input.",
        )
        .bin_name("sched_audit")?
        .arg(name(alloc, "TRACE", "The recording: the file `trace` of tracefs"))?
        .arg(name(
            alloc,
            "COMPANION",
            "The start, and the claimed virtual runtimes (vruntime)",
        ))
}

/// The command with the flags of the report.
fn with_flags<'a>(alloc: Global, command: Command<'a>) -> Result<Command<'a>, AllocError>
    ensures { IfOk result (λ more. app_of more ≡ with_flags (app_of command.entry)) }
{
    command
        .arg(lone_flag(
            alloc,
            "least",
            "Print the least settings at which the recording is a run",
        )?)?
        .arg(flag(
            alloc,
            "waits",
            "After the report of a run, say how long each task waited",
        ))?
        .arg(flag(
            alloc,
            "explain",
            "After a fault or a refusal, say why in lines that begin with #",
        ))?
        .arg(flag(
            alloc,
            "summary",
            "Print only the counts of a run, and no line for each task",
        ))
}

/// The command with the file of states, the flag for JSON and the colour.
fn with_words<'a>(alloc: Global, command: Command<'a>) -> Result<Command<'a>, AllocError>
    ensures { IfOk result (λ more. app_of more ≡ with_words (app_of command.entry)) }
{
    command
        .arg(word_option(
            alloc,
            "states",
            "FILE",
            "Write how the processor stands at each event to FILE, a JSON line for each",
        ))?
        .arg(json_flag(alloc)?)?
        .arg(word_option(
            alloc,
            "color",
            "WHEN",
            "Colour the explanation: auto (on a terminal), always or never",
        ))
}

/// The command with an option for each of these settings.
fn with_settings<'a>(
    alloc: Global,
    command: Command<'a>,
    settings: &[Setting],
) -> Result<Command<'a>, AllocError>
    ensures { IfOk result (λ more. app_of more ≡ with_settings settings.now (app_of command.entry)) }
{
    let mut more = command;
    for setting in settings {
        more = more.arg(option_of(alloc, *setting))?;
    }
    Ok(more)
}

/// A file's name, which has to be there.
fn name<'a>(alloc: Global, id: &'a str, help: &'a str) -> Arg<'a>
    ensures rule { rule_of result ≡ name_rule id.now }
    ensures local { result.global ≡ false }
{
    Arg::new(alloc, id).required(true).help(help)
}

/// A setting's option, with a word that says an amount.
fn option_of(alloc: Global, setting: Setting) -> Arg<'static>
    ensures rule { rule_of result ≡ setting_rule setting }
    ensures local { result.global ≡ false }
{
    let name = setting.name();
    let help = setting.help();
    Arg::new(alloc, name).long(name).value_name("N").help(help)
}

/// An option without a value.
fn flag<'a>(alloc: Global, id: &'a str, help: &'a str) -> Arg<'a>
    ensures rule { rule_of result ≡ flag_rule id.now }
    ensures local { result.global ≡ false }
{
    Arg::new(alloc, id)
        .long(id)
        .action(ArgAction::SetTrue)
        .help(help)
}

/// The flag for JSON, which doesn't go with an explanation.
fn json_flag(alloc: Global) -> Result<Arg<'static>, AllocError>
    ensures rule { IfOk result (λ flag. rule_of flag ≡ parted_flag_rule (codes "json")) }
    ensures local { IfOk result (λ flag. flag.global ≡ false) }
{
    let flag = flag(alloc, "json", "Print the report as one JSON object");
    beside(flag, "explain")
}

/// An option that doesn't go with the one of this name either.
fn beside(option: Arg<'static>, other: &'static str) -> Result<Arg<'static>, AllocError>
    ensures rule { IfOk result (λ parted. rule_of parted ≡ record (rule_of option.entry) { is_free = false }) }
    ensures local { IfOk result (λ parted. parted.global ≡ option.entry.global) }
{
    let parted = option.conflicts_with(other)?;
    Ok(parted)
}

/// An option with one word.
fn word_option<'a>(alloc: Global, id: &'a str, value: &'a str, help: &'a str) -> Arg<'a>
    ensures rule { rule_of result ≡ word_rule id.now }
    ensures local { result.global ≡ false }
{
    Arg::new(alloc, id).long(id).value_name(value).help(help)
}

/// A flag that doesn't go with any of the settings.
fn lone_flag(
    alloc: Global,
    id: &'static str,
    help: &'static str,
) -> Result<Arg<'static>, AllocError>
    ensures rule { IfOk result (λ flag. rule_of flag ≡ lone_flag_rule id.now) }
    ensures local { IfOk result (λ flag. flag.global ≡ false) }
{
    beside_none(flag(alloc, id, help), &Setting::ALL)
}

/// A flag that doesn't go with any of these settings either.
fn beside_none(flag: Arg<'static>, settings: &[Setting]) -> Result<Arg<'static>, AllocError>
    ensures rule { IfOk result (λ lone. rule_of lone ≡ beside_none settings.now (rule_of flag.entry)) }
    ensures local { IfOk result (λ lone. lone.global ≡ flag.entry.global) }
{
    let mut lone = flag;
    for setting in settings {
        lone = beside(lone, setting.name())?;
    }
    Ok(lone)
}

/// The names, the settings and the flags that the values are; None where one has no sense, or where a setting is given
/// beside `--least`.
fn request_of<'a>(matches: &ArgMatches<'a>) -> Option<Request<'a>>
    ensures { IfSome result (IsRequestOf (rows_of (found_of matches.now))) }
{
    let least = flag_of(matches, "least")?;
    if least && !has_no_setting(matches) {
        return None;
    }
    let trace = matches.get_str("TRACE")?;
    let companion = matches.get_str("COMPANION")?;
    if reads_input_twice(trace, companion) {
        return None;
    }
    let explain = flag_of(matches, "explain")?;
    let json = flag_of(matches, "json")?;
    if json && explain {
        return None;
    }
    Some(Request {
        trace,
        companion,
        knobs: knobs_of(matches)?,
        least,
        waits: flag_of(matches, "waits")?,
        explain,
        summary: flag_of(matches, "summary")?,
        states: matches.get_str("states"),
        json,
        color: color_for(matches)?,
    })
}

/// When the explanation has colour; None where the option's word says none of the three.
fn color_for(matches: &ArgMatches<'_>) -> Option<Color>
    ensures { result ≡ color_for (rows_of (found_of matches.now)) }
{
    match matches.get_str("color") {
        Some(word) => Color::of_word(word),
        None => Some(Color::Auto),
    }
}

/// Whether both names are that of standard input.
fn reads_input_twice(trace: &str, companion: &str) -> bool
    ensures { result ≡ (is_input trace.now && is_input companion.now) }
{
    is_input(trace) && is_input(companion)
}

/// Whether a name is that of standard input.
fn is_input(name: &str) -> bool
    ensures { result ≡ is_input name.now }
{
    name == "-"
}

/// Whether none of the settings is given.
fn has_no_setting(matches: &ArgMatches<'_>) -> bool
    ensures { OnTrue result (HasNoSetting (rows_of (found_of matches.now))) }
{
    have_none(matches, &Setting::ALL)
}

/// Whether none of these settings is given.
fn have_none(matches: &ArgMatches<'_>, settings: &[Setting]) -> bool
    ensures { OnTrue result (HaveNone (rows_of (found_of matches.now)) settings.now) }
{
    for setting in settings {
        if !is_absent(matches, setting.name()) {
            return false;
        }
    }
    true
}

/// Whether an option isn't given.
fn is_absent(matches: &ArgMatches<'_>, id: &str) -> bool
    ensures { OnTrue result (first_of id.now (rows_of (found_of matches.now)) ≡ None) }
{
    matches.get_str(id).is_none()
}

/// The settings that the values are; None where one has no sense.
fn knobs_of(matches: &ArgMatches<'_>) -> Option<Knobs>
    ensures same { IfSome result (λ knobs. knobs ≡ settings_by (setting_of (rows_of (found_of matches.now)))) }
    ensures in_range { IfSome result (λ _. AreInRange (settings_by (setting_of (rows_of (found_of matches.now))))) }
    ensures each { IfSome result (λ _. HaveAmounts (rows_of (found_of matches.now)) all_settings) }
{
    Knobs::of(amounts_of(matches, &Setting::ALL)?)
}

/// The values of these settings, and nothing of any other; None where one has no sense.
fn amounts_of(matches: &ArgMatches<'_>, settings: &[Setting]) -> Option<Amounts>
    ensures same { IfSome result (λ amounts. amounts
        ≡ with_values (setting_of (rows_of (found_of matches.now))) settings.now nothing) }
    ensures each { IfSome result (λ _. HaveAmounts (rows_of (found_of matches.now)) settings.now) }
{
    let mut amounts = Amounts::none();
    for setting in settings {
        amounts = amounts.with(*setting, number_of(matches, *setting)?);
    }
    Some(amounts)
}

/// The nanoseconds of a setting, or its default where its option isn't given; None where its word says no amount.
fn number_of(matches: &ArgMatches<'_>, setting: Setting) -> Option<u64>
    ensures { IfSome result (λ number. amount_for (rows_of (found_of matches.now)) setting ≡ Some number) }
{
    match matches.try_get_one::<Amount>(setting.name()) {
        Ok(amount) => Some(nanoseconds_or(amount, setting.standard())),
        Err(_) => None,
    }
}

/// The nanoseconds of an amount, or a default where there is none.
fn nanoseconds_or(amount: Option<Amount>, default: u64) -> u64
    ensures { result ≡ unwrap_or (option_map (λ a. a.nanoseconds) amount) default }
{
    match amount {
        Some(amount) => amount.nanoseconds,
        None => default,
    }
}

/// Whether a flag is given; None where its value is neither.
fn flag_of(matches: &ArgMatches<'_>, id: &str) -> Option<bool>
    ensures { IfSome result (λ given. given ≡ is_flagged id.now (rows_of (found_of matches.now))) }
{
    match matches.try_get_one::<bool>(id) {
        Ok(given) => Some(given.unwrap_or(false)),
        Err(_) => None,
    }
}
