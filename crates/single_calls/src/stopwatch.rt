use std::io;
use std::rt::Clock;
use std::time::Instant;

/// A clock that prints the nanoseconds of each of its laps.
#[derive(Drop)]
pub struct Stopwatch {
    last: Instant,
}

impl Stopwatch {
    pub fn start<C: Clock>(clock: &C) -> io::Result<Stopwatch> {
        let last = Instant::now(clock)?;
        Ok(Stopwatch { last })
    }

    /// Ends a lap, prints it, and then begins another.
    pub fn print_lap<R: Clock + Print>(&mut self, rt: &R) -> io::Result<()> {
        print!(rt; "{} ", self.last.elapsed(rt)?.as_nanos())?;
        self.last = Instant::now(rt)?;
        Ok(())
    }
}
