// A type as memory holds it: its parts are cells with smaller numbers, here and in a sub-term by number and in no box, since no heap is
// asked for while a text is read.
#[derive(Clone, Copy, PartialEq, Eq, Debug)]
pub enum TypeCell {
    N,
    Arrow(usize, usize),
    Product(usize, usize),
}

// What a sub-term is: its parts are sub-terms with smaller numbers, and a variable is known by the place of its binder's name.
#[derive(Clone, Copy, PartialEq, Eq, Debug)]
pub enum Shape {
    Variable(usize),
    Number(u32),
    Successor(usize),
    Function {
        binder: usize,
        annotation: usize,
        body: usize,
    },
    Application(usize, usize),
    Pair(usize, usize),
    Let {
        first: usize,
        second: usize,
        pair: usize,
        body: usize,
    },
    Iterator {
        count: usize,
        step: usize,
        base: usize,
    },
}

// A sub-term, with the place of its first byte.
#[derive(Clone, Copy, PartialEq, Eq, Debug)]
pub struct Subterm {
    pub place: usize,
    pub shape: Shape,
}
