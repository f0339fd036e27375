ghost use Rattle.std.specs.Prelude.{◌≡◌, IfNone, IfSome};
ghost use Rattle.std.specs.List.{AllPairs};
ghost use Rattle.cfs_model.specs.Claimed.{policy_by};
ghost use Rattle.companion_file.specs.Spans.{SpanRises, starts_span};
ghost use Rattle.sched_record.specs.Policies.{IsLastBefore, IsSpanIndex, NoneBefore, stands_before};

use cfs_model::Policy;
use companion_file::IdleSpan;

/// The idle policy, where that is so.
pub(crate) fn policy_if_idle(is_idle: bool) -> Policy
    ensures { result ≡ policy_by is_idle }
{
    if is_idle {
        Policy::Idle
    } else {
        Policy::Normal
    }
}

/// How many of the spans stand before one of this pid that starts at this line.
fn span_index(spans: &[IdleSpan], line: u32, pid: u32) -> usize
    requires { AllPairs SpanRises spans.now }
    ensures { IsSpanIndex spans.now line pid result }
{
    spans.partition_point(
        |span: &IdleSpan| -> bool
            ensures { result ≡ stands_before line pid span.now }
        { span.pid < pid || (span.pid == pid && span.from < line) },
    )
}

/// Whether a span of this pid starts at this line.
pub(crate) fn has_span(spans: &[IdleSpan], line: u32, pid: u32) -> bool
    requires { AllPairs SpanRises spans.now }
    ensures { result ≡ starts_span spans.now line pid }
{
    let index = span_index(spans, line, pid);
    if index == spans.len() {
        return false;
    }
    let span = spans[index];
    span.pid == pid && span.from == line
}

/// The index of the last span of this pid that starts above this line.
pub(crate) fn span_before(spans: &[IdleSpan], line: u32, pid: u32) -> Option<usize>
    requires { AllPairs SpanRises spans.now }
    ensures none { IfNone result (NoneBefore spans.now line pid) }
    ensures found { IfSome result (λ index. IsLastBefore spans.now line pid index) }
{
    let index = span_index(spans, line, pid);
    if index > 0 && spans[index - 1].pid == pid {
        Some(index - 1)
    } else {
        None
    }
}
