use plain_list::PlainList;
use replay_model::Step;

/// The steps of a stream, in the order of their lines.
pub type Steps = PlainList<Step>;
