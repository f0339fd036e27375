//! Faults and refusals.
ghost use Rattle.std.specs.Prelude.{◌≡◌, ◌++◌, OnOk, string_bytes};
ghost use Rattle.audit_report.specs.Report.{line_of};
ghost use Rattle.least_places.specs.Place.{time_on_line};
ghost use Rattle.report_json.specs.Json.{object};
ghost use Rattle.report_json.specs.Objects.{all_members, bound_member, cause_members, fault_members, fault_time};
ghost use Rattle.report_json.specs.Objects.{kind_members, number_members};
ghost use Rattle.report_json.specs.Objects.{refusal_members, refusal_object, source_members, where_members};
ghost use Rattle.sched_record.specs.Record.{record_view};

use crate::name::{NameTold, push_name};
use audit_input::{Cause, Source};
use cfs_model::{Entry, Kind};
use fault_bounds::Bound;
use replay_model::FirstFault;
use sched_record::Record;
use std::alloc::AllocError;

/// Writes a fault, with its task's name and its numbers.
pub(crate) fn push_fault(
    text: &mut String,
    fault: FirstFault,
    time: u64,
    name: &NameTold,
    bound: Option<Bound>,
) -> Result<(), AllocError>
    ensures { OnOk result (string_bytes text.new
        ≡ string_bytes text.old ++ line_of (object (all_members fault time name.now bound))) }
{
    write!(text, "{{")?;
    push_all_members(text, fault, time, name, bound)?;
    writeln!(text, "}}")
}

fn push_all_members(
    text: &mut String,
    fault: FirstFault,
    time: u64,
    name: &NameTold,
    bound: Option<Bound>,
) -> Result<(), AllocError>
    ensures { OnOk result
        (string_bytes text.new ≡ string_bytes text.old ++ all_members fault time name.now bound) }
{
    push_fault_members(text, fault, time)?;
    push_name(text, name)?;
    push_bound(text, bound)
}

/// Writes the numbers of a fault, or that there are none.
fn push_bound(text: &mut String, bound: Option<Bound>) -> Result<(), AllocError>
    ensures { OnOk result (string_bytes text.new ≡ string_bytes text.old ++ bound_member bound) }
{
    write!(text, ",\"bound\":")?;
    match bound {
        Some(bound) => push_numbers(text, bound),
        None => write!(text, "null"),
    }
}

/// Writes both numbers as strings: one may have more than 64 bits.
fn push_numbers(text: &mut String, bound: Bound) -> Result<(), AllocError>
    ensures { OnOk result (string_bytes text.new ≡ string_bytes text.old ++ object (number_members bound)) }
{
    let Bound { value, limit } = bound;
    write!(text, "{{\"value\":\"{value}\",\"limit\":\"{limit}\"}}")
}

fn push_fault_members(text: &mut String, fault: FirstFault, time: u64) -> Result<(), AllocError>
    ensures { OnOk result (string_bytes text.new ≡ string_bytes text.old ++ fault_members fault time) }
{
    push_where(text, fault, time)?;
    push_kind(text, fault.kind)
}

/// Writes where and when a fault is.
fn push_where(text: &mut String, fault: FirstFault, time: u64) -> Result<(), AllocError>
    ensures { OnOk result (string_bytes text.new ≡ string_bytes text.old ++ where_members fault time) }
{
    let FirstFault { line, cpu, pid, .. } = fault;
    write!(
        text,
        "\"verdict\":\"fault\",\"line\":{line},\"time\":{time},\"cpu\":{cpu},\"pid\":{pid}"
    )
}

/// Writes what is wrong.
fn push_kind(text: &mut String, kind: Kind) -> Result<(), AllocError>
    ensures { OnOk result (string_bytes text.new ≡ string_bytes text.old ++ kind_members kind) }
{
    let (name, words) = kind.words();
    write!(text, ",\"kind\":\"{name}\",\"text\":\"{words}\"")
}

/// Writes which text is refused, where and why.
pub(crate) fn push_refusal(
    text: &mut String,
    source: Source,
    line: u64,
    cause: Cause,
) -> Result<(), AllocError>
    ensures { OnOk result (string_bytes text.new ≡ string_bytes text.old ++ refusal_object source line cause) }
{
    write!(text, "{{")?;
    push_refusal_members(text, source, line, cause)?;
    writeln!(text, "}}")
}

fn push_refusal_members(
    text: &mut String,
    source: Source,
    line: u64,
    cause: Cause,
) -> Result<(), AllocError>
    ensures { OnOk result (string_bytes text.new ≡ string_bytes text.old ++ refusal_members source line cause) }
{
    push_source(text, source)?;
    push_cause(text, line, cause)
}

/// Writes which text is refused.
fn push_source(text: &mut String, source: Source) -> Result<(), AllocError>
    ensures { OnOk result (string_bytes text.new ≡ string_bytes text.old ++ source_members source) }
{
    let source = source.word();
    write!(text, "\"verdict\":\"refused\",\"text\":\"{source}\"")
}

/// Writes where a text is refused, and why.
fn push_cause(text: &mut String, line: u64, cause: Cause) -> Result<(), AllocError>
    ensures { OnOk result (string_bytes text.new ≡ string_bytes text.old ++ cause_members line cause) }
{
    let cause = cause.word();
    write!(text, ",\"line\":{line},\"cause\":\"{cause}\"")
}

/// When the event on a fault's line happened, in nanoseconds; 0 where there is no fault.
pub(crate) fn time_of(fault: Option<FirstFault>, joined: &Record) -> u64
    ensures { result ≡ fault_time (record_view joined.now) fault }
{
    match fault {
        Some(fault) => time_on(joined.events(), fault.line),
        None => 0,
    }
}

/// The time of the first event on a line, in nanoseconds; 0 where there is none.
fn time_on(events: &[Entry], line: u32) -> u64
    ensures { result ≡ time_on_line events.now line }
{
    for event in events {
        if event.line == line {
            return event.time;
        }
    }
    0
}
