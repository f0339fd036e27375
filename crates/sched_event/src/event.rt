ghost use Rattle.std.specs.Prelude.{◌≡◌, ◌∷◌, []};
ghost use Rattle.sched_event.specs.EventView.{switched, woken, born, migrated};
ghost use Rattle.sched_event.specs.Seen.{event_view, switch_view, wakeup_view, migration_view};
ghost use Rattle.sched_event.specs.Act.{act_of, is_put_back, is_gone, is_runnable, way_of};

use cfs_model::{Act, IDLE_PID, Nice, Way};

/// `sched_switch`: a processor goes from one task to another. Pid 0 is the processor's idle task.
#[derive(Clone, Copy, Debug, PartialEq, Eq)]
pub struct Switch<'a> {
    /// The processor that the line's head names.
    pub cpu: u32,
    pub prev_name: &'a [u8],
    pub prev: u32,
    /// Of pid 0 it is 0.
    pub prev_nice: Nice,
    /// The letters of the state in which the task leaves.
    pub prev_state: &'a [u8],
    pub next_name: &'a [u8],
    pub next: u32,
    /// Of pid 0 it is 0.
    pub next_nice: Nice,
}

/// `sched_wakeup` or `sched_wakeup_new`: a task enters a processor's runqueue.
#[derive(Clone, Copy, Debug, PartialEq, Eq)]
pub struct Wakeup<'a> {
    pub name: &'a [u8],
    pub pid: u32,
    pub nice: Nice,
    /// The processor whose runqueue the task enters.
    pub target: u32,
}

/// `sched_migrate_task`: a task goes from one processor to another.
#[derive(Clone, Copy, Debug, PartialEq, Eq)]
pub struct Migration<'a> {
    pub name: &'a [u8],
    pub pid: u32,
    pub nice: Nice,
    pub orig: u32,
    pub dest: u32,
}

/// An event of the scheduler. Its names and its state are slices of the trace's line.
#[derive(Clone, Copy, Debug, PartialEq, Eq)]
pub enum Event<'a> {
    Switch(Switch<'a>),
    /// A task that slept wakes up.
    Wakeup(Wakeup<'a>),
    /// A task wakes up for the first time.
    WakeupNew(Wakeup<'a>),
    Migration(Migration<'a>),
}

/// The task was put back into the runqueue.
fn is_put_back(state: &[u8]) -> bool
    ensures { result ≡ is_put_back state.now }
{
    state.iter().any(|letter| *letter == b'+')
}

/// The task is a zombie or dead.
fn is_gone(state: &[u8]) -> bool
    ensures { result ≡ is_gone state.now }
{
    state
        .iter()
        .any(|letter| matches!(*letter, b'X' | b'Z' | b'x'))
}

/// The task can go on running.
fn is_runnable(state: &[u8]) -> bool
    ensures { result ≡ is_runnable state.now }
{
    matches!(state, [b'R', ..])
}

/// How a task in this state leaves its processor. Nearly all states have a letter or two.
#[inline(always)]
fn way_of(state: &[u8]) -> Way
    ensures { result ≡ way_of state.now }
{
    if state.is_empty() || state.len() > 2 {
        return way_by_letters(state);
    }
    way_by_ends(state[0], state[state.len() - 1])
}

/// The same for a state of one letter or two, of which these are the first and the last. Nobody could guess what they
/// are, so no branch is made of it.
#[inline(always)]
fn way_by_ends(first: u8, last: u8) -> Way
    ensures one { first ≡ last → result ≡ way_of (first ∷ []) }
    ensures two { result ≡ way_of (first ∷ last ∷ []) }
{
    let put_back = (first == b'+') | (last == b'+');
    let gone = is_end(first) | is_end(last);
    let runnable = first == b'R';
    if put_back | (runnable & !gone) {
        Way::Stays
    } else if gone {
        Way::Ends
    } else {
        Way::Sleeps
    }
}

/// Whether a letter is that of a task which is gone.
#[inline(always)]
fn is_end(letter: u8) -> bool
    ensures { result ≡ is_gone (letter ∷ []) }
{
    (letter == b'X') | (letter == b'Z') | (letter == b'x')
}

/// The same for any letters.
#[inline(never)]
fn way_by_letters(state: &[u8]) -> Way
    ensures { result ≡ way_of state.now }
{
    if is_put_back(state) {
        Way::Stays
    } else if is_gone(state) {
        Way::Ends
    } else if is_runnable(state) {
        Way::Stays
    } else {
        Way::Sleeps
    }
}

impl Switch<'_> {
    /// What the switch does.
    #[inline(always)]
    pub(crate) fn act(&self) -> Act
        ensures { result ≡ act_of (switched (switch_view self.now)) }
    {
        Act::Switch {
            cpu: self.cpu,
            prev: self.prev,
            prev_nice: self.prev_nice,
            way: if self.prev == IDLE_PID {
                Way::Stays
            } else {
                way_of(self.prev_state)
            },
            next: self.next,
            next_nice: self.next_nice,
        }
    }
}

impl Wakeup<'_> {
    /// What the wakeup of a task that slept does.
    #[inline(always)]
    pub(crate) fn wake(&self) -> Act
        ensures { result ≡ act_of (woken (wakeup_view self.now)) }
    {
        Act::Wake {
            cpu: self.target,
            pid: self.pid,
            nice: self.nice,
        }
    }

    /// What the first wakeup of a task does.
    #[inline(always)]
    pub(crate) fn birth(&self) -> Act
        ensures { result ≡ act_of (born (wakeup_view self.now)) }
    {
        Act::Born {
            cpu: self.target,
            pid: self.pid,
            nice: self.nice,
        }
    }
}

impl Migration<'_> {
    /// What the migration does.
    #[inline(always)]
    pub(crate) fn act(&self) -> Act
        ensures { result ≡ act_of (migrated (migration_view self.now)) }
    {
        Act::Shift {
            orig: self.orig,
            dest: self.dest,
            pid: self.pid,
            nice: self.nice,
        }
    }
}

impl<'a> Event<'a> {
    /// What the event does.
    pub fn act(&self) -> Act
        ensures { result ≡ act_of (event_view self.now) }
    {
        match self {
            Event::Switch(switch) => switch.act(),
            Event::Wakeup(wakeup) => wakeup.wake(),
            Event::WakeupNew(birth) => birth.birth(),
            Event::Migration(migration) => migration.act(),
        }
    }
}
