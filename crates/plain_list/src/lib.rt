//! A list of values that a contract sees as just that.
#![tactic(auto)]

mod plain_list;

pub use plain_list::PlainList;
