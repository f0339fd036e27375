ghost use Rattle.std.specs.Prelude.{◌≡◌};
ghost use Rattle.cfs_model.specs.Options.{name_of_setting, standard_value};

use crate::kind::Kind;

/// One of the settings of the profile, in the order in which reports tell them.
#[derive(Clone, Copy, Debug, PartialEq, Eq)]
pub enum Setting {
    /// How far above the least virtual runtime a picked task may be.
    Granularity,
    /// How far below the floor (min_vruntime) a woken task may be placed.
    Credit,
    /// How far above the floor (min_vruntime) a new task may be placed.
    Debit,
    /// How long a processor may idle beside a waiting task.
    Slack,
    /// How far a task's told charges may stray in sum from the exact ones, since it came to its processor.
    Drift,
}

/// What is fixed of a setting.
#[derive(Clone, Copy)]
struct Row {
    name: &'static str,
    help: &'static str,
    standard: u64,
    kind: Kind,
}

// The table of settings: of each the name of its option, what it bounds, its default in nanoseconds, and the kind of a
// fault that passes the bound.
macro_rules! row_of {
    ($setting:expr; $($variant:ident: $name:literal, $help:literal, $standard:literal, $kind:ident;)+) => {
        match $setting {
            $(Setting::$variant => Row {
                name: $name,
                help: concat!($help, " [default: ", $standard, "]"),
                standard: $standard,
                kind: Kind::$kind,
            },)+
        }
    };
}

impl Setting {
    /// All of them.
    pub const ALL: [Setting; 5] = [
        Setting::Granularity,
        Setting::Credit,
        Setting::Debit,
        Setting::Slack,
        Setting::Drift,
    ];

    fn row(self) -> Row
        ensures name { result.name.now ≡ name_of_setting self }
        ensures standard { result.standard ≡ standard_value self }
    {
        row_of!(self;
            Granularity: "granularity-ns",
                "How far above the least virtual runtime (vruntime) a picked task may be", 1000000, NotLeast;
            Credit: "credit-ns",
                "How far below the floor (min_vruntime) a woken task may be placed", 3000000, WakeBounds;
            Debit: "debit-ns",
                "How far above the floor (min_vruntime) a new task may be placed", 3000000, ForkBounds;
            Slack: "slack-ns",
                "How long a processor may idle beside a waiting task", 100000, IdleTooLong;
            Drift: "drift-ns",
                "How far the companion's charges may stray in sum from exact ones", 0, WrongCharge;
        )
    }

    /// The name of its option, without the dashes.
    pub fn name(self) -> &'static str
        ensures { result.now ≡ name_of_setting self }
    {
        self.row().name
    }

    /// What it bounds, with its default: a line of the help.
    pub fn help(self) -> &'static str {
        self.row().help
    }

    /// Its default, in nanoseconds.
    pub fn standard(self) -> u64
        ensures { result ≡ standard_value self }
    {
        self.row().standard
    }

    /// The kind of a fault that passes its bound.
    pub fn kind(self) -> Kind {
        self.row().kind
    }
}
