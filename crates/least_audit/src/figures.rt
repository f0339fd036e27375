ghost use Rattle.std.specs.Prelude.{◌≡◌, ◌≢◌, ℕ, ◌+◌, ◌<◌, ◌≤◌, ◌++◌, [], List, None};
ghost use Rattle.cfs_model.specs.Claimed.{Claimed};
ghost use Rattle.cfs_model.specs.Knobs.{KnobsView, nothing, value_at};
ghost use Rattle.cfs_model.specs.declared.setting.Setting.{Setting as SettingOf};
ghost use Rattle.cfs_model.specs.declared.setting.Setting.TheVariants.{Slack};
ghost use Rattle.least_places.specs.Place.{place_at};
ghost use Rattle.need_laws.specs.Short as short;
ghost use Rattle.replay_model.specs.Cut.{last_time_of};
ghost use Rattle.sched_record.specs.Window.{window_view};
ghost use Rattle.window_audit.specs.Audit.{Beginning};
ghost use Rattle.least_audit.specs.Candidates.{over_of};
ghost use Rattle.least_audit.specs.FirstOf.{IsFirstLate};
ghost use Rattle.least_audit.specs.Pursuers.{IsWindowPursued, needs_behind, view_at};
ghost use Rattle.least_audit.specs.SoFar.{AreFiguresOf, IsPlacedSoFar};
ghost use Rattle.least_audit.specs.declared.pursuer.Pursuer.{Pursuer as PursuerOf};

use crate::pursuer::{Idling, Pursuer, RiseAt};
use crate::pursuers::{first_idling, first_rise, needs_at};
use crate::rise::Rise;
use cfs_model::{Amounts, Entry, Setting, places};
use least_places::{Place, Places};
use replay_model::{Deed, Step};
use sched_record::Window;

/// The least settings of the events so far, and where each is needed first.
#[derive(Clone, Copy, Debug)]
pub(crate) struct Figures {
    pub least: Amounts,
    pub places: Places,
}

impl Figures {
    /// Those before the first event.
    pub fn none() -> Figures
        ensures least { result.least ≡ nothing }
        ensures places { (which : SettingOf) → place_at result.places which ≡ None }
    {
        Figures {
            least: Amounts::none(),
            places: Places {
                granularity: None,
                credit: None,
                debit: None,
                slack: None,
                drift: None,
            },
        }
    }

    /// Those behind a window that all processors went through, which has an event.
    pub fn behind(&self, pursuers: &[Pursuer], window: &Window) -> Figures
        ensures { (of : Beginning) (so_far : List Claimed) (before : List PursuerOf) → window_view window.now ≢ []
            → IsWindowPursued of so_far (window_view window.now) before pursuers.now
            → AreFiguresOf of so_far before self.now
            → AreFiguresOf of (so_far ++ window_view window.now) pursuers.now result }
    {
        let least = needs_at(pursuers, last_time(window));
        Figures {
            least,
            places: Places {
                granularity: self.place(Setting::Granularity, least, pursuers, window),
                credit: self.place(Setting::Credit, least, pursuers, window),
                debit: self.place(Setting::Debit, least, pursuers, window),
                slack: self.place(Setting::Slack, least, pursuers, window),
                drift: self.place(Setting::Drift, least, pursuers, window),
            },
        }
    }

    /// The place of a setting among those: in the window where more is needed, else where it was.
    fn place(
        &self,
        setting: Setting,
        least: Amounts,
        pursuers: &[Pursuer],
        window: &Window,
    ) -> Option<Place>
        ensures { (of : Beginning) (so_far : List Claimed) (before : List PursuerOf) → window_view window.now ≢ []
            → IsWindowPursued of so_far (window_view window.now) before pursuers.now
            → AreFiguresOf of so_far before self.now
            → least ≡ needs_behind of (so_far ++ window_view window.now) pursuers.now
            → IsPlacedSoFar of (so_far ++ window_view window.now) least setting result }
    {
        let value = least.get(setting);
        if value <= self.least.get(setting) {
            return self.places.get(setting);
        }
        match setting {
            Setting::Slack => idling_place(pursuers, window, value - 1),
            _ => rise_place(pursuers, setting, value),
        }
    }
}

/// The first step of a window at which so much is needed of a setting but the slack.
fn rise_place(pursuers: &[Pursuer], setting: Setting, value: u64) -> Option<Place>
    ensures { (of : Beginning) (so_far window : List Claimed) (before : List PursuerOf) (least : KnobsView)
        → IsWindowPursued of so_far window before pursuers.now
        → least ≡ needs_behind of (so_far ++ window) pursuers.now → value ≡ value_at least setting
        → ((cpu : ℕ) → cpu < of.cpus → value_at (view_at before cpu).needs setting < value)
        → setting ≢ Slack
        → IsPlacedSoFar of (so_far ++ window) least setting result }
{
    places();
    match first_rise(pursuers, setting, value) {
        Some(RiseAt { cpu, rise }) => Some(Place {
            line: rise.step.line,
            time: rise.step.time,
            cpu,
            pid: needing(setting, &rise.step),
            over: over_at(setting, &rise),
        }),
        None => None,
    }
}

/// Whom the picked task was above, at the place of a granularity. Other settings' places have nobody.
fn over_at(setting: Setting, rise: &Rise) -> Option<u32>
    ensures { result ≡ over_of setting rise.now }
{
    match setting {
        Setting::Granularity => rise.over,
        Setting::Credit | Setting::Debit | Setting::Slack | Setting::Drift => None,
    }
}

/// The first event of a window by whose time a processor has idled for longer than a bound.
fn idling_place(pursuers: &[Pursuer], window: &Window, bound: u64) -> Option<Place>
    ensures { (of : Beginning) (so_far : List Claimed) (before : List PursuerOf) (least : KnobsView)
        → window_view window.now ≢ []
        → IsWindowPursued of so_far (window_view window.now) before pursuers.now
        → least ≡ needs_behind of (so_far ++ window_view window.now) pursuers.now → bound + 1 ≡ least.slack
        → (needs_behind of so_far before).slack ≤ bound
        → IsPlacedSoFar of (so_far ++ window_view window.now) least Slack result }
{
    match first_idling(pursuers, bound) {
        Some(Idling { cpu, since }) => match first_late(window.events(), since, bound) {
            Some(event) => Some(Place {
                line: event.line,
                time: event.time,
                cpu,
                pid: 0,
                over: None,
            }),
            None => None,
        },
        None => None,
    }
}

/// The first of some events by whose time a processor has idled since a time for longer than a bound, in nanoseconds.
fn first_late(events: &[Entry], since: u64, bound: u64) -> Option<Entry>
    ensures { IsFirstLate events.now since bound result }
{
    for event in events {
        if event.time.saturating_sub(since) > bound {
            return Some(*event);
        }
    }
    None
}

/// The task of which a step needs so much of a setting; of the slack none, which is 0.
fn needing(setting: Setting, step: &Step) -> u32
    ensures { result ≡ short.needing setting step.now }
{
    match setting {
        Setting::Slack => 0,
        Setting::Drift => match step.charge {
            Some(charge) => charge.pid,
            None => 0,
        },
        Setting::Granularity | Setting::Credit | Setting::Debit => placed_by(step.deed),
    }
}

/// Whom a deed picks, wakes or gives birth to; else 0.
fn placed_by(deed: Deed) -> u32
    ensures { result ≡ short.placed_by deed }
{
    match deed {
        Deed::Switch { next, .. } => next,
        Deed::Wake { pid, .. } | Deed::Born { pid, .. } => pid,
        Deed::Leave { .. } | Deed::Arrive { .. } => 0,
    }
}

/// The time of a window's last event, in nanoseconds; of a window without events 0.
fn last_time(window: &Window) -> u64
    ensures { (start : ℕ) (before : List Claimed) → window_view window.now ≢ []
        → last_time_of start (before ++ window_view window.now) ≡ result }
{
    match window.events().last() {
        Some(event) => event.time,
        None => 0,
    }
}
