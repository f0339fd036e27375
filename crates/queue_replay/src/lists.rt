use plain_list::PlainList;
use replay_model::{LifeEvent, Tally, Ticket};

/// The tickets of the tasks that left a processor, or came to it, in the order of their lines.
pub type Tickets = PlainList<Ticket>;

/// Births or deaths, in the order of their lines.
pub type LifeEvents = PlainList<LifeEvent>;

/// What each task did at a processor, in the order in which they first stood there.
pub type Tallies = PlainList<Tally>;
