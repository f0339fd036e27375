use crate::LeastSettings;

/// The least settings by a book of pages, and how many processors' pages had to be made again for them.
#[derive(Debug, PartialEq, Eq, Drop)]
pub struct ClosedLeast {
    pub least: LeastSettings,
    pub remade: u32,
}
