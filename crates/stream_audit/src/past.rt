use cfs_model::Memory;
use companion_file::Companion;
use queue_replay::WindowedReplay;
use replay_model::FirstFault;
use sched_record::Window;

/// What is kept of a recording's last events while they are judged, so that a fault among them can be explained. No
/// verdict rests on it. Each call that changes it answers `Memory` where a growth is refused, and the audit ends there.
pub trait Past {
    /// Whether events are kept, and no fault was told yet.
    fn goes_on(&self) -> bool;

    /// Before the first window: where the replays of all processors stand, in their order, by the start of this
    /// companion. Before another one nothing changes.
    fn begin(&mut self, companion: &Companion, replays: &[&WindowedReplay]) -> Result<(), Memory>;

    /// Takes a window, behind which the replays stand, and gives an empty one for it.
    fn take_window(
        &mut self,
        replays: &[&WindowedReplay],
        window: &mut Window,
    ) -> Result<(), Memory>;

    /// Takes the window that has the first fault, and stays as it is from then on.
    fn take_last(
        &mut self,
        companion: &Companion,
        window: &mut Window,
        fault: FirstFault,
    ) -> Result<(), Memory>;
}

/// A past of which nothing is kept.
#[derive(Clone, Copy, Debug)]
pub struct NoPast;

impl Past for NoPast {
    fn goes_on(&self) -> bool {
        false
    }

    fn begin(
        &mut self,
        _companion: &Companion,
        _replays: &[&WindowedReplay],
    ) -> Result<(), Memory> {
        Ok(())
    }

    fn take_window(
        &mut self,
        _replays: &[&WindowedReplay],
        _window: &mut Window,
    ) -> Result<(), Memory> {
        Ok(())
    }

    fn take_last(
        &mut self,
        _companion: &Companion,
        _window: &mut Window,
        _fault: FirstFault,
    ) -> Result<(), Memory> {
        Ok(())
    }
}
