use cells::Cell;
use stack::{Shelves, Stack};
use token::{DataCell, IterCell, Letter};

// A token over a network's cells, which others may walk too, with stacks in lent memory.
#[derive(Drop)]
pub struct Token<'a> {
    pub(crate) cells: &'a [Cell],
    pub(crate) from: u32,
    pub(crate) to: u32,
    pub(crate) letters: Stack<'a, Letter>,
    pub(crate) iters: Stack<'a, IterCell>,
    pub(crate) datas: Stack<'a, DataCell>,
    pub(crate) shelves: Shelves<'a, IterCell>,
}
