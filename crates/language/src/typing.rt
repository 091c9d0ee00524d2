// The type of a sub-term.

// A sub-term, by its number, and its type's cell.
#[derive(Clone, Copy, PartialEq, Eq, Debug)]
pub struct Typing {
    pub subterm: usize,
    pub cell: usize,
}
