use crate::placing::Placing;

/// What is asked for anew.
#[derive(Clone, Copy, Debug, PartialEq, Eq, PartialOrd, Ord)]
pub(crate) enum News {
    None,
    /// That events place tasks elsewhere.
    OfEvents,
    /// That tasks stand elsewhere at the start.
    OfStart,
}

impl News {
    /// A placement has to be another.
    pub(crate) fn of(at: Placing) -> News {
        match at {
            Placing::ByEvent(_) => News::OfEvents,
            Placing::AtStart(_) => News::OfStart,
        }
    }
}
