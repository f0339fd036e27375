//! What words make of a command line: how clap takes them is its own, so that it is shown here.

use crate::answers::wants_about;
use cfs_model::{Knobs, Setting};
use clap::error::ErrorKind;
use sched_audit::{Color, Request, command_line};
use std::alloc::Global;

/// The standard settings with this value of one.
fn knobs_with(setting: Setting, value: u64) -> Knobs {
    Knobs::standard()
        .with(setting, value)
        .unwrap_or(Knobs::standard())
}

fn judged(knobs: Knobs) -> Request<'static> {
    Request {
        trace: "a",
        companion: "b",
        knobs,
        least: false,
        waits: false,
        explain: false,
        summary: false,
        states: None,
        json: false,
        color: Color::Auto,
    }
}

/// What these words ask for, or what clap says of them.
fn asked<'a>(alloc: Global, words: &'a [&'a str]) -> Result<Request<'a>, ErrorKind> {
    match command_line(alloc, words) {
        Ok(request) => Ok(request),
        Err(error) => Err(error.kind()),
    }
}

#[test]
fn each_option_is_its_own_setting(rt: HostRuntime) {
    for (option, setting, value) in [
        ("--granularity-ns=7", Setting::Granularity, 7),
        ("--credit-ns=7", Setting::Credit, 7),
        ("--debit-ns=7", Setting::Debit, 7),
        ("--slack-ns=7", Setting::Slack, 7),
        ("--slack-ns=0", Setting::Slack, 0),
        ("--slack-ns=+7", Setting::Slack, 7),
        (
            "--slack-ns=1000000000000",
            Setting::Slack,
            1_000_000_000_000,
        ),
        ("--drift-ns=7", Setting::Drift, 7),
    ] {
        let given = knobs_with(setting, value);
        for words in [
            ["sched_audit", "a", "b", option],
            ["sched_audit", "a", option, "b"],
            ["sched_audit", option, "a", "b"],
        ] {
            wants_about(&rt, option, &asked(rt.alloc(), &words), &Ok(judged(given)));
        }
    }
}

#[test]
fn amounts_have_units(rt: HostRuntime) {
    for (option, value) in [
        ("--slack-ns=3.4ms", 3_400_000),
        ("--slack-ns=500us", 500_000),
        ("--slack-ns=0.5us", 500),
        ("--slack-ns=2s", 2_000_000_000),
        ("--slack-ns=3e6", 3_000_000),
        ("--slack-ns=3.4e6", 3_400_000),
        ("--slack-ns=7ns", 7),
        ("--slack-ns=+07.000ns", 7),
        ("--slack-ns=1000s", 1_000_000_000_000),
    ] {
        let words = ["sched_audit", "a", "b", option];
        let given = judged(knobs_with(Setting::Slack, value));
        wants_about(&rt, option, &asked(rt.alloc(), &words), &Ok(given));
    }
}

#[test]
fn other_amounts_are_refused(rt: HostRuntime) {
    for option in [
        "--slack-ns=3.4ns",
        "--slack-ns=0.5",
        "--slack-ns=1.0005us",
        "--slack-ns=1000.000000001s",
        "--slack-ns=2m",
        "--slack-ns=2 s",
        "--slack-ns=.5s",
        "--slack-ns=1.s",
        "--slack-ns=1e13",
        "--slack-ns=3e6us",
        "--slack-ns=-1s",
        "--slack-ns=s",
    ] {
        let words = ["sched_audit", "a", "b", option];
        let wanted = Err(ErrorKind::ValueValidation);
        wants_about(&rt, option, &asked(rt.alloc(), &words), &wanted);
    }
}

#[test]
fn settings_have_defaults(rt: HostRuntime) {
    for words in [
        ["sched_audit", "a", "b"].as_slice(),
        ["sched_audit", "--", "a", "b"].as_slice(),
    ] {
        let standard = judged(Knobs::standard());
        wants_about(&rt, "", &asked(rt.alloc(), words), &Ok(standard));
    }
}

/// What is asked for at the standard settings by these flags, in the order of the help, and with this file of states.
fn flagged(flags: [bool; 5], states: Option<&'static str>) -> Request<'static> {
    let [least, waits, explain, summary, json] = flags;
    Request {
        trace: "a",
        companion: "b",
        knobs: Knobs::standard(),
        least,
        waits,
        explain,
        summary,
        states,
        json,
        color: Color::Auto,
    }
}

#[test]
fn flags_and_the_file_of_states_are_taken(rt: HostRuntime) {
    for (option, flags, states) in [
        ("--least", [true, false, false, false, false], None),
        ("--waits", [false, true, false, false, false], None),
        ("--explain", [false, false, true, false, false], None),
        ("--summary", [false, false, false, true, false], None),
        ("--states=c", [false, false, false, false, false], Some("c")),
        ("--json", [false, false, false, false, true], None),
    ] {
        let words = ["sched_audit", "a", option, "b"];
        let wanted = flagged(flags, states);
        wants_about(&rt, option, &asked(rt.alloc(), &words), &Ok(wanted));
    }
}

#[test]
fn colours_are_taken(rt: HostRuntime) {
    for (option, color) in [
        ("--color=auto", Color::Auto),
        ("--color=always", Color::Always),
        ("--color=never", Color::Never),
    ] {
        let words = ["sched_audit", "a", option, "b"];
        let wanted = Request {
            color,
            ..judged(Knobs::standard())
        };
        wants_about(&rt, option, &asked(rt.alloc(), &words), &Ok(wanted));
    }
}

/// Command lines that ask for the least settings and name a setting.
static LEAST_BESIDE_A_SETTING: [&[&str]; 15] = [
    &[
        "sched_audit",
        "a",
        "b",
        "--least",
        "--granularity-ns=1000000",
    ],
    &[
        "sched_audit",
        "a",
        "b",
        "--granularity-ns=1000000",
        "--least",
    ],
    &[
        "sched_audit",
        "--granularity-ns=1000000",
        "a",
        "--least",
        "b",
    ],
    &["sched_audit", "a", "b", "--least", "--credit-ns=0"],
    &["sched_audit", "a", "b", "--credit-ns=0", "--least"],
    &["sched_audit", "--credit-ns=0", "a", "--least", "b"],
    &["sched_audit", "a", "b", "--least", "--debit-ns=3000000"],
    &["sched_audit", "a", "b", "--debit-ns=3000000", "--least"],
    &["sched_audit", "--debit-ns=3000000", "a", "--least", "b"],
    &["sched_audit", "a", "b", "--least", "--slack-ns=1"],
    &["sched_audit", "a", "b", "--slack-ns=1", "--least"],
    &["sched_audit", "--slack-ns=1", "a", "--least", "b"],
    &["sched_audit", "a", "b", "--least", "--drift-ns=0"],
    &["sched_audit", "a", "b", "--drift-ns=0", "--least"],
    &["sched_audit", "--drift-ns=0", "a", "--least", "b"],
];

#[test]
fn least_settings_go_with_no_setting(rt: HostRuntime) {
    for words in &LEAST_BESIDE_A_SETTING {
        let wanted = Err(ErrorKind::ArgumentConflict);
        wants_about(&rt, "", &asked(rt.alloc(), words), &wanted);
    }
}

#[test]
fn names_are_taken_as_given(rt: HostRuntime) {
    for (trace, companion) in [
        ("", " "),
        ("--help", "-5"),
        ("b", "a"),
        ("help", "--"),
        ("-", "a"),
        ("a", "-"),
    ] {
        let words = ["sched_audit", "--", trace, companion];
        let wanted = Request {
            trace,
            companion,
            knobs: Knobs::standard(),
            least: false,
            waits: false,
            explain: false,
            summary: false,
            states: None,
            json: false,
            color: Color::Auto,
        };
        wants_about(&rt, trace, &asked(rt.alloc(), &words), &Ok(wanted));
    }
}

#[test]
fn other_words_are_refused(rt: HostRuntime) {
    for (words, kind) in [
        (
            ["sched_audit", "a"].as_slice(),
            ErrorKind::MissingRequiredArgument,
        ),
        (
            ["sched_audit", "a", "b", "c"].as_slice(),
            ErrorKind::UnknownArgument,
        ),
        (
            ["sched_audit", "a", "b", "-x"].as_slice(),
            ErrorKind::UnknownArgument,
        ),
        (
            ["sched_audit", "a", "b", "--slack-ns"].as_slice(),
            ErrorKind::InvalidValue,
        ),
        (
            ["sched_audit", "a", "b", "--slack-ns="].as_slice(),
            ErrorKind::ValueValidation,
        ),
        (
            ["sched_audit", "a", "b", "--slack-ns=x"].as_slice(),
            ErrorKind::ValueValidation,
        ),
        (
            ["sched_audit", "a", "b", "--slack-ns=1000000000001"].as_slice(),
            ErrorKind::ValueValidation,
        ),
        (
            ["sched_audit", "a", "b", "--drift-ns=1000000000001"].as_slice(),
            ErrorKind::ValueValidation,
        ),
        (
            ["sched_audit", "a", "b", "--slack-ns=1", "--slack-ns=1"].as_slice(),
            ErrorKind::ArgumentConflict,
        ),
        (
            ["sched_audit", "a", "b", "--least", "--least"].as_slice(),
            ErrorKind::ArgumentConflict,
        ),
        (
            ["sched_audit", "a", "b", "--explain", "--explain"].as_slice(),
            ErrorKind::ArgumentConflict,
        ),
        (
            ["sched_audit", "a", "b", "--least=1"].as_slice(),
            ErrorKind::TooManyValues,
        ),
        (
            ["sched_audit", "a", "b", "--json", "--explain"].as_slice(),
            ErrorKind::ArgumentConflict,
        ),
        (
            ["sched_audit", "a", "b", "--color=red"].as_slice(),
            ErrorKind::InvalidValue,
        ),
        (
            ["sched_audit", "-", "-"].as_slice(),
            ErrorKind::ArgumentConflict,
        ),
        (["sched_audit", "--help"].as_slice(), ErrorKind::DisplayHelp),
        (
            ["sched_audit", "--version"].as_slice(),
            ErrorKind::DisplayVersion,
        ),
    ] {
        wants_about(&rt, "", &asked(rt.alloc(), words), &Err(kind));
    }
}
