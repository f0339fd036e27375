use std::thread::{JoinHandle, Threads, spawn};

/// Starts a thread that does nothing, before those that do. Some systems let the first thread that a busy one starts
/// wait on the same core until that one rests, and give each further one an idle core.
pub fn first_of_threads<R: Threads>(rt: &R) -> Option<JoinHandle<()>> {
    spawn(rt, || {}).ok()
}
