/// Who is told how far an audit is.
pub trait Watch {
    /// So many bytes more are judged or cut.
    fn pass(&mut self, bytes: u64);

    /// So many bytes behind these were tried as a stretch, and are good as far as is known.
    fn tried(&mut self, bytes: u64);
}
