use crate::debug::told_floors;
use crate::floors::Floors;
use crate::prints::Prints;
use std::alloc::Global;

/// What the texts tell of the kernel's own values.
#[derive(Drop)]
pub struct KernelValues {
    pub(crate) prints: Prints,
    /// The floors at the start that the kernel told beside the trace.
    pub(crate) floors: Floors,
}

impl KernelValues {
    /// Those that these prints tell, and that the text of `sched/debug` tells, where it is given.
    pub fn told(prints: Prints, debug: Option<&[u8]>) -> KernelValues {
        let floors = match debug {
            Some(told) => told_floors(told),
            None => Floors::unknown(),
        };
        KernelValues { prints, floors }
    }

    /// Nothing.
    pub(crate) fn none(alloc: Global) -> KernelValues {
        KernelValues {
            prints: Prints::none(alloc),
            floors: Floors::unknown(),
        }
    }
}
