//! The calls on a record.

use crate::endings::{out_of_memory, print_answer};
use crate::processor_calls::print_calls_by_processor;
use audit_crew::{OpenGate, audit, audit_serial, crew};
use cfs_model::{Knobs, Memory};
use sched_audit::{LeastFigures, Outcome, Place, Places, least_report, report};
use sched_record::Record;
use std::alloc::Global;
use std::io;
use std::process::ExitCode;
use std::sync::Wait;
use std::thread::Threads;
use ticket_book::{Book, ClosedLeast, LeastSettings, whole_page};

/// Makes the call of this name on a record, or on each of its processors.
pub fn print_call_on<R: AllocGlobal + Print + Threads + Wait + Sync>(
    rt: &R,
    call: &str,
    record: &Record,
) -> io::Result<ExitCode> {
    let alloc = rt.alloc();
    let knobs = Knobs::standard();
    match call {
        "book" => print_answer(rt, &Book::new(alloc, record.cpus())),
        "crew" => print_answer(rt, &crew(rt, alloc, record, knobs, &OpenGate)),
        "audit" => print_answer(rt, &audit(rt, alloc, record, knobs, &OpenGate)),
        "audit_serial" => print_answer(rt, &audit_serial(alloc, record, knobs)),
        "audit_least" => print_answer(rt, &audit_least(rt, record)),
        "close" => print_answer(rt, &full_book(alloc, record)?.close(record, knobs)),
        "close_without_pages" => print_answer(rt, &empty_book(alloc, record)?.close(record, knobs)),
        "report" => {
            let closed = audit_serial(alloc, record, knobs).map_err(out_of_memory)?;
            print_answer(rt, &report(alloc, &Outcome::Judged(closed.verdict)))
        }
        "least_report" => {
            let least = audit_least(rt, record).map_err(out_of_memory)?.least;
            // With a line of the drift, whatever the companion's version is.
            print_answer(
                rt,
                &least_report(alloc, &Outcome::Judged(figures_of(&least)), true),
            )
        }
        _ => print_calls_by_processor(rt, call, record),
    }
}

/// The least settings of a record, by a crew.
fn audit_least<R: AllocGlobal + Threads + Wait + Sync>(
    rt: &R,
    record: &Record,
) -> Result<ClosedLeast, Memory> {
    crew(rt, rt.alloc(), record, Knobs::greatest(), &OpenGate)?
        .book
        .close_least(record)
}

/// Least settings as a report has them, with a place.
fn figures_of(least: &LeastSettings) -> LeastFigures {
    match least {
        LeastSettings::Found(knobs) => LeastFigures::Found {
            knobs: *knobs,
            places: Places {
                granularity: Some(Place {
                    line: 1,
                    time: 1,
                    cpu: 0,
                    pid: 1,
                    over: Some(2),
                }),
                credit: None,
                debit: None,
                slack: None,
                drift: None,
            },
        },
        LeastSettings::Fault(fault) => LeastFigures::Fault(*fault),
    }
}

fn empty_book(alloc: Global, record: &Record) -> io::Result<Book> {
    Book::new(alloc, record.cpus()).map_err(out_of_memory)
}

/// The book of a record, with the whole page of each processor.
fn full_book(alloc: Global, record: &Record) -> io::Result<Book> {
    let mut book = empty_book(alloc, record)?;
    for cpu in 0..record.cpus() {
        let page = whole_page(alloc, record, cpu, Knobs::standard()).map_err(out_of_memory)?;
        let _told = book.post(page);
    }
    Ok(book)
}
