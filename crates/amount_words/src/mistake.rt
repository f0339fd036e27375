use crate::amount::Amount;
use crate::fault::AmountFault;
use cfs_model::{GREATEST_SETTING, Setting};
use clap::error::ErrorKind;
use clap::{Arg, ArgMatches, Command, Error, value_parser};
use std::alloc::{AllocError, Global};
use text_parts::numerals::digit_count;
use text_parts::pieces::after_byte;

/// What is told of the first of these settings whose word says no amount that it takes, if there is one.
pub fn amount_mistake(
    alloc: Global,
    matches: &ArgMatches<'_>,
    settings: &[Setting],
) -> Result<Option<Error>, AllocError> {
    for setting in settings {
        let name = setting.name();
        if let (Some(word), Err(fault)) = (
            matches.get_str(name),
            matches.try_get_one::<Amount>(name),
        ) {
            return Ok(Some(amount_error(alloc, *setting, word, fault)?));
        }
    }
    Ok(None)
}

/// What clap tells of a number that is none, or that is out of range. An amount with a unit is told in nanoseconds.
fn amount_error(
    alloc: Global,
    setting: Setting,
    word: &str,
    fault: AmountFault,
) -> Result<Error, AllocError> {
    let name = setting.name();
    let number = number_for(alloc, word, fault)?;
    let option = format!(in alloc; "--{name}={number}")?;
    let words = ["", option.as_str()];
    number_error(alloc, setting, &words)
}

/// What clap tells of these words, of which one gives the setting a number that it doesn't take.
fn number_error<'a>(
    alloc: Global,
    setting: Setting,
    words: &'a [&'a str],
) -> Result<Error, AllocError> {
    let mut command = number_command(alloc, setting)?;
    match command.try_get_matches_from_mut(words) {
        Err(error) => Ok(error),
        Ok(_) => command.error(ErrorKind::ValueValidation, "a value is out of range"),
    }
}

/// A command with no more than this setting.
fn number_command<'a>(alloc: Global, setting: Setting) -> Result<Command<'a>, AllocError> {
    Command::new(alloc, "").arg(number_option(alloc, setting))
}

/// An option that takes plain nanoseconds alone.
fn number_option(alloc: Global, setting: Setting) -> Arg<'static> {
    let name = setting.name();
    Arg::new(alloc, name)
        .long(name)
        .value_name("N")
        .value_parser(value_parser!(u64).range(0..=GREATEST_SETTING as i64))
}

/// The word, or the nanoseconds that it says too many.
fn number_for(alloc: Global, word: &str, fault: AmountFault) -> Result<String, AllocError> {
    match fault {
        AmountFault::Beyond(nanoseconds) if has_unit(word.as_bytes()) => {
            format!(in alloc; "{nanoseconds}")
        }
        _ => String::from_str(alloc, word),
    }
}

/// Whether more than digits stand behind the plus of a word.
fn has_unit(word: &[u8]) -> bool {
    let text = after_byte(word, b'+').unwrap_or(word);
    digit_count(text) < text.len()
}
