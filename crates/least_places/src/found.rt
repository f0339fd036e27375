use crate::LeastFigures;
use ticket_book::Verdict;

/// What is found of a record, from which what is told of it is made.
#[derive(Debug, Drop)]
pub enum Finding {
    Verdict(Verdict),
    Least(LeastFigures),
}
