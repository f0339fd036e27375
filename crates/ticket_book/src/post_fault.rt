use std::error::Error;
use std::fmt;

/// Why a book doesn't take a page.
#[derive(Clone, Copy, Debug, PartialEq, Eq)]
pub enum PostFault {
    /// The page's processor isn't one of the book's.
    Outside,
    /// That processor has a page.
    Twice,
}

impl fmt::Display for PostFault {
    fn fmt<W: fmt::Write>(&self, f: &mut fmt::Formatter<W>) -> fmt::Result {
        match self {
            PostFault::Outside => f.write_str("the page's processor isn't one of the book's"),
            PostFault::Twice => f.write_str("the page's processor has a page"),
        }
    }
}

impl Error for PostFault {}
