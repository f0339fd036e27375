use crate::Verdict;

/// A book's verdict, and how many processors' pages had to be made again for it.
#[derive(Debug, PartialEq, Eq, Drop)]
pub struct Closed {
    pub verdict: Verdict,
    pub remade: u32,
}
