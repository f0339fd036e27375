use bstr::ByteSlice;
use std::fmt;
use text_parts::numerals::numeral_at;

/// The least granularity that no CFS needs, in virtual nanoseconds.
const FAR: u64 = 100_000_000;

/// What a report of the least settings begins with, before the number.
const LEAST: &[u8] = b"least granularity-ns ";

/// Why a recording is likely one of EEVDF, which follows no virtual runtime alone.
#[derive(Clone, Copy, Debug, PartialEq, Eq)]
pub enum KernelHint {
    /// A pick was so far above the least task that waited.
    Far(u64),
    /// A pick stays a fault at a granularity that no CFS needs.
    NoneServes,
}

impl KernelHint {
    /// By the granularity that a recording needs.
    pub fn of_granularity(granularity: u64) -> Option<KernelHint> {
        if granularity >= FAR {
            Some(KernelHint::Far(granularity))
        } else {
            None
        }
    }

    /// By how a report begins that was made at this granularity.
    pub fn of_report(front: &[u8], granularity: u64) -> Option<KernelHint> {
        match least_granularity(front) {
            Some(least) => KernelHint::of_granularity(least),
            None if granularity >= FAR && is_of_pick(front) => Some(KernelHint::NoneServes),
            None => None,
        }
    }
}

impl fmt::Display for KernelHint {
    fn fmt<W: fmt::Write>(&self, f: &mut fmt::Formatter<W>) -> fmt::Result {
        match *self {
            KernelHint::Far(granularity) => write!(
                f,
                "a pick was {granularity} ns above the least: the kernel is likely one of EEVDF"
            ),
            KernelHint::NoneServes => f.write_str(
                "no granularity below 100 ms mends this fault: the kernel is likely one of EEVDF",
            ),
        }
    }
}

/// The granularity that a report of the least settings begins with.
fn least_granularity(front: &[u8]) -> Option<u64> {
    if !front.starts_with(LEAST) {
        return None;
    }
    let (granularity, _) = numeral_at(front.get(LEAST.len()..)?)?;
    Some(granularity)
}

/// Whether a report begins with the fault of a pick beyond the granularity.
fn is_of_pick(front: &[u8]) -> bool {
    front.starts_with(b"fault ") && front.find(b" NotLeast: ").is_some()
}
