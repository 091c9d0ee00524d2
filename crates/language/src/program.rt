// A checked program, as it stands in the workspace that it was checked in.
use crate::counts::Facts;
use crate::typing::Typing;
use syntax::program::{Subterm, TypeCell};

// Lists of different things, each lent as it stands in memory: its sub-terms, the last of them the whole, its types' cells, the type of each sub-term in the order they were checked in, and its counts.
#[derive(Clone, Copy)]
pub struct Program<'a> {
    pub subterms: &'a [Subterm],
    pub types: &'a [TypeCell],
    pub typings: &'a [Typing],
    pub root: usize,
    pub facts: Facts,
}
