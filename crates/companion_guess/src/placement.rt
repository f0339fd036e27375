/// What is known of the virtual runtime at which an event places a task.
#[derive(Clone, Copy, Debug, PartialEq, Eq)]
pub(crate) enum Placement {
    /// Nothing.
    Unknown,
    /// A print tells it.
    Printed(i64),
    /// What is found later asks for it.
    Asked(i64),
}

impl Placement {
    pub(crate) fn of(printed: Option<i64>) -> Placement {
        match printed {
            Some(v) => Placement::Printed(v),
            None => Placement::Unknown,
        }
    }

    /// In virtual nanoseconds.
    pub(crate) fn value(self) -> Option<i64> {
        match self {
            Placement::Unknown => None,
            Placement::Printed(v) | Placement::Asked(v) => Some(v),
        }
    }

    /// That which a print tells.
    pub(crate) fn printed(self) -> Option<i64> {
        match self {
            Placement::Printed(v) => Some(v),
            Placement::Unknown | Placement::Asked(_) => None,
        }
    }
}
