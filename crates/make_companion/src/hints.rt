//! What is likely a mistake, and what to do next: said on standard error.
use crate::audit_command::AuditCommand;
use cfs_model::{Amounts, GREATEST_SETTING, Knobs, Setting};
use companion_guess::{Guessed, Strategy, tells_floors};
use given_texts::{KernelHint, is_overwritten, trace_hint};

/// What is said of a companion that is given as the trace.
const OF_COMPANION: &str = "is a companion: a companion is made of a trace";

/// Says what is likely a mistake in a trace that is refused, by its front.
pub(crate) fn say_of_text<R: Eprint>(rt: &R, front: &[u8]) {
    if let Some(hint) = trace_hint(front, OF_COMPANION) {
        let _ = eprintln!(rt; "hint: the trace {hint}");
    }
    say_of_loss(rt, front);
}

/// Says what makes companions of a trace in which some lines can't be judged.
pub(crate) fn say_of_stretches<R: Eprint>(rt: &R) {
    let _ = eprintln!(rt;
        "hint: audit_recording leaves such lines out, and judges what is between; with --out FOLDER it writes the companions"
    );
}

/// Says what to do with the companion that was written for a trace, which begins with this and may have no event; and
/// what is likely a mistake in that or in the text of `--debug`.
pub(crate) fn say_of_companion<R: Eprint>(
    rt: &R,
    front: &[u8],
    is_empty: bool,
    debug: Option<&[u8]>,
    guess: Option<Guessed>,
) {
    say_of_loss(rt, front);
    if is_empty {
        let _ = eprintln!(rt; "hint: the trace has no event of the scheduler");
    } else if let Some(guess) = guess {
        if let Some(debug) = debug {
            say_of_debug(rt, debug, guess.strategy);
        }
        say_of_guess(rt, guess);
    }
}

/// Says where the text of `--debug` changed nothing.
fn say_of_debug<R: Eprint>(rt: &R, debug: &[u8], strategy: Strategy) {
    if strategy != Strategy::Kernel {
        let _ = eprintln!(rt;
            "hint: --debug changes nothing: the companion has none of the kernel's values, which lines of sched_stat_runtime tell"
        );
    } else if !tells_floors(debug) {
        let _ = eprintln!(rt;
            "hint: the file of --debug tells no floor: it has no .min_vruntime that can be read behind a heading cfs_rq[CPU]:"
        );
    }
}

fn say_of_loss<R: Eprint>(rt: &R, front: &[u8]) {
    if is_overwritten(front) {
        let _ = eprintln!(rt;
            "hint: the trace misses events: its two numbers of entries differ, so the buffer was overwritten"
        );
    }
}

fn say_of_guess<R: Eprint>(rt: &R, guess: Guessed) {
    let needs = guess.needs;
    say_of_stop(rt, guess.stop);
    say_of_kernel(rt, needs.get(Setting::Granularity));
    say_of_needs(rt, needs);
}

/// Says that the event on a line fits no settings.
fn say_of_stop<R: Eprint>(rt: &R, stop: Option<u32>) {
    if let Some(line) = stop {
        let _ = eprintln!(rt;
            "hint: line {line} fits no settings: an event is missing before it, or it isn't of CFS; the lines before it may be a run"
        );
    }
}

/// Says by which command to audit at these settings.
fn say_of_needs<R: Eprint>(rt: &R, needs: Amounts) {
    match Knobs::of(needs) {
        Some(knobs) => {
            let command = AuditCommand(knobs);
            let _ = eprintln!(rt; "hint: run {command}");
        }
        None => {
            let _ = eprintln!(rt;
                "hint: a setting would have to be greater than the greatest, {GREATEST_SETTING} ns"
            );
        }
    }
}

fn say_of_kernel<R: Eprint>(rt: &R, granularity: u64) {
    if let Some(hint) = KernelHint::of_granularity(granularity) {
        let _ = eprintln!(rt; "hint: {hint}");
    }
}
