use syntax::program::Shape;

// A program has no more sub-terms than this.
pub(crate) const SUBTERMS: usize = 2048;

// How many nodes a sub-term makes, and how many uses of variables are free in it.
#[derive(Clone, Copy, PartialEq, Eq, Debug)]
pub(crate) struct Count {
    pub(crate) nodes: usize,
    pub(crate) uses: usize,
}

// A sub-term with its counts. Its parts are sub-terms with smaller numbers.
#[derive(Clone, Copy)]
pub(crate) struct Part {
    pub(crate) shape: Shape,
    pub(crate) count: Count,
}

// The numbers that the next node and the next iterator get.
#[derive(Clone, Copy, PartialEq, Eq, Debug)]
pub(crate) struct Next {
    pub(crate) node: usize,
    pub(crate) iterator: u32,
}
