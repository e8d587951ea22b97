//! What the seats of a tie's table know. No value of these types is made.
use std::collections::LinkedList;

/// What a seat is to its tie.
pub enum Part {
    /// Both ends, before they are two.
    Both,
    /// The near end.
    Near,
    /// The far end.
    Far,
    /// A copy of the near end's keys.
    Note,
    /// A copy of the far end's keys.
    Receipt,
    /// A note or a receipt that was taken in.
    Spent,
}

/// What a seat knows.
pub struct View {
    /// What the seat is.
    pub part: Part,
    /// Of a near end: a key was announced, and no receipt for it was taken in.
    pub is_open: bool,
    /// The keys of an end, or those that a note or a receipt copied.
    pub keys: LinkedList<u64>,
    /// The keys of the note or the receipt that an end took in last.
    pub taken: LinkedList<u64>,
    /// Of a note: it was split off while the near end was closed. Of a far end: so was the note that it
    /// took in last.
    pub from_closed: bool,
}
