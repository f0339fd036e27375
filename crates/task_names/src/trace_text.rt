use cfs_model::Memory;

/// The text of a trace that went by, of which lines can be had again.
pub trait TraceText {
    /// The line of this number, from 1, without its line feed. None where the text ends before it, or can't be read
    /// again.
    fn line(&mut self, number: u32) -> Result<Option<Vec<u8>>, Memory>;
}
