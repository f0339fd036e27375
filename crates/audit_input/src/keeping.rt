/// What a feed keeps of a text that goes by.
#[derive(Clone, Copy, Debug, PartialEq, Eq)]
pub enum Keeping {
    /// Nothing: its file can be read again.
    Nothing,
    /// The last reads, and those that were the last when most was found.
    Last,
    /// All bytes.
    All,
}
