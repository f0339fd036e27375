/// How many items of each list stand on lines up to the last event's, as the lists were then: no more than where to
/// begin, since the front of a list may be gone by now.
#[derive(Clone, Copy, Debug)]
pub(crate) struct Hints {
    pub(crate) claims: usize,
    pub(crate) nices: usize,
    pub(crate) charges: usize,
    pub(crate) idles: usize,
}

impl Hints {
    /// Before the first event.
    pub(crate) fn new() -> Hints {
        Hints {
            claims: 0,
            nices: 0,
            charges: 0,
            idles: 0,
        }
    }
}
