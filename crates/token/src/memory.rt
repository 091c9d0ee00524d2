// What the cells of a token's stacks hold.

// A letter on m: by which port a multiplexer was entered.
#[derive(Clone, Copy, PartialEq, Eq, Debug)]
pub enum Letter {
    Left,
    Right,
}

// A cell on i: an iterator's number of turns, or that number while it is counted.
#[derive(Clone, Copy, PartialEq, Eq, Debug)]
pub enum IterCell {
    Number(u32),
    Pair(u32, u32),
}

// The side of a pair on which a counter counts; the other side keeps the number. Not `Letter`: a stack could then hold a side.
#[derive(Clone, Copy, PartialEq, Eq, Debug)]
pub enum Side {
    Left,
    Right,
}

// A cell on d: the question, or a number that answers it. Not an `Option`: the question is asked, and no number is missing.
#[derive(Clone, Copy, PartialEq, Eq, Debug)]
pub enum DataCell {
    Question,
    Number(u32),
}
