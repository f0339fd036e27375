ghost use Rattle.std.specs.Prelude.{◌≡◌};
ghost use Rattle.sched_record.specs.Lesser.{lesser_of};

/// The lesser of two numbers, where there are any.
pub(crate) fn lesser(one: Option<u64>, other: Option<u64>) -> Option<u64>
    ensures { result ≡ lesser_of one other }
{
    match (one, other) {
        (Some(one), Some(other)) => Some(one.min(other)),
        (Some(one), None) => Some(one),
        (None, other) => other,
    }
}
