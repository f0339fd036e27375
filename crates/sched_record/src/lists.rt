use cfs_model::Entry;
use plain_list::PlainList;

/// The events of a trace, in the order of their lines.
pub type Events = PlainList<Entry>;
