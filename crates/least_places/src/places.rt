ghost use Rattle.std.specs.Prelude.{◌≡◌};

use crate::Place;
use cfs_model::Setting;

/// Of each of the least settings the place of its figure. A figure of 0 has none.
#[derive(Clone, Copy, Debug, PartialEq, Eq)]
pub struct Places {
    pub granularity: Option<Place>,
    pub credit: Option<Place>,
    pub debit: Option<Place>,
    pub slack: Option<Place>,
    pub drift: Option<Place>,
}

impl Places {
    ghost use Rattle.least_places.specs.Place.{place_at};

    /// That of a setting's figure.
    pub fn get(&self, setting: Setting) -> Option<Place>
        ensures { result ≡ place_at self.now setting }
    {
        match setting {
            Setting::Granularity => self.granularity,
            Setting::Credit => self.credit,
            Setting::Debit => self.debit,
            Setting::Slack => self.slack,
            Setting::Drift => self.drift,
        }
    }
}
