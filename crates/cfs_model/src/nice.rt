ghost use Rattle.std.specs.Prelude.{◌≡◌, ℤ, pos, negsuc, ◌≤ℤ◌, ◌<ℤ◌, ◌-ℤ◌, ◌↔◌, IsSome, IfSome, IsErrOf, IfOk};
ghost use Rattle.cfs_model.specs.Nice.{IsNice};

use std::marker::Model;

/// A task's nice value, from -20 (the heaviest) to 19 (the lightest).
#[derive(Clone, Copy, Debug, PartialEq, Eq)]
pub struct Nice {
    value: i8,
}

impl Model for Nice {
    ghost Value = { ℤ };

    ghost view = { λ n. n.value };

    ghost invariant = { λ n. IsNice n.value };

    ghost inverse = { λ z. record { value = z } };
}

/// Why a printed prio names no nice value of a fair task.
#[derive(Clone, Copy, Debug, PartialEq, Eq)]
pub enum PrioFault {
    /// Below 100: a real-time or deadline task, or one of the kernel's `migration/N` threads.
    RealTime,
    /// Above 139.
    PrioRange,
}

impl Nice {
    /// None outside -20 to 19.
    pub fn new(value: i32) -> Option<Nice>
        ensures in_range { IsSome result ↔ IsNice value }
        ensures same { IfSome result (λ n. n ≡ value) }
    {
        if -20 <= value && value <= 19 {
            Some(Nice { value: value as i8 })
        } else {
            None
        }
    }

    /// The value, from -20 to 19.
    pub fn get(self) -> i32
        ensures same { result ≡ self }
        ensures in_range { IsNice result }
    {
        i32::from(self.value)
    }

    /// The nice value that a printed prio stands for: a fair task prints 120 plus its nice.
    pub fn of_prio(prio: i64) -> Result<Nice, PrioFault>
        ensures nice { IfOk result (λ n. n ≡ prio -ℤ pos 120) }
        ensures real_time { IsErrOf result PrioFault.RealTime ↔ (prio <ℤ pos 100) }
        ensures above { IsErrOf result PrioFault.PrioRange ↔ (pos 139 <ℤ prio) }
    {
        if prio < 100 {
            Err(PrioFault::RealTime)
        } else if prio > 139 {
            Err(PrioFault::PrioRange)
        } else {
            Ok(Nice {
                value: (prio - 120) as i8,
            })
        }
    }
}
