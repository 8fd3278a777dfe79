// Where something stands on a card.

// A line and a field of it, both counted from 1; the field is 0 where the whole line is meant, and both are 0 where no line is.
#[derive(Clone, Copy, PartialEq, Eq)]
pub struct Place {
    pub line: usize,
    pub field: usize,
}
