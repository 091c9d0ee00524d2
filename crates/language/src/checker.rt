// What a check of types works on.
ghost use Rattle.std.specs.Prelude.{◌≤◌, vec_capacity};

use crate::context::Context;
use crate::table::TypeTable;
use crate::typing::Typing;

// The types met so far, the typed sub-terms in the order they were checked in, the variables in force, and a cell that is N. All by
// number, with no boxes: no heap is asked for while a text is checked.
#[derive(Drop)]
pub(crate) struct Checker {
    pub(crate) types: TypeTable,
    pub(crate) typings: Vec<Typing>,
    pub(crate) context: Context,
    pub(crate) number: usize,
    ghost typings_fit: { 2048 ≤ vec_capacity typings },
}
