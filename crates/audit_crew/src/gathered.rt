use ticket_book::Book;

/// What a crew gathered: the book in which its auditors posted.
#[derive(Debug, Drop)]
pub struct Gathered {
    pub book: Book,
    /// The number of pages that the book accepted.
    pub posted: u32,
}
