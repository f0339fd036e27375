use crate::stopwatch::Stopwatch;
use cfs_model::Knobs;
use sched_audit::{FeedOf, Heard, Outcome, Sizes, Verdict, judge_in_blocks};
use std::fs::File;
use std::io;
use std::rt::{Clock, Files};
use std::thread::Threads;
use stream_audit::NoPast;

/// Judges two files a block at a time, and prints how long it took and what they came to.
pub fn print_streamed<R: AllocGlobal + Clock + Files + Print + Threads + Sync>(
    rt: &R,
    trace: &str,
    companion: &str,
    sizes: Sizes,
) -> io::Result<()> {
    let mut watch = Stopwatch::start(rt)?;
    let trace = &mut FeedOf::new(File::open(rt, trace)?);
    let companion = &mut FeedOf::new(File::open(rt, companion)?);
    let heard = judge_in_blocks::<Verdict, _, _, _, _>(
        rt,
        rt.alloc(),
        trace,
        companion,
        Knobs::standard(),
        sizes,
        &mut NoPast,
    );
    watch.print_lap(rt)?;
    match heard {
        Ok(Heard { outcome, .. }) => match outcome {
            Outcome::Judged(Verdict::Run(summary)) => println!(rt; "run {}", summary.events),
            Outcome::Judged(Verdict::Fault(fault)) => println!(rt; "fault {}", fault.line),
            Outcome::Text { line, .. } => println!(rt; "refused {line}"),
        },
        Err(fault) => println!(rt; "{fault}"),
    }
}
