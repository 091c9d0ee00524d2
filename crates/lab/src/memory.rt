ghost use Rattle.std.specs.Prelude.{IfOk};
ghost use Rattle.lab.specs.Memories.{Sized, Lent};

use cells::Cell;
use std::alloc::{AllocError, Global};
use token::{DataCell, IterCell, Letter};

// The memory that a host lends to a session: cells for the network, and cells for the token's stacks. A slice for each use, since a host lends each by itself.
#[derive(Drop)]
pub struct Memory<'a> {
    pub cells: &'a mut [Cell],
    pub letters: &'a mut [Letter],
    pub iters: &'a mut [IterCell],
    pub shelves: &'a mut [IterCell],
    pub datas: &'a mut [DataCell],
}

const NODES: usize = 2_048;

const LETTERS: usize = 256;

const ITERS: usize = 256;

const SHELVED: usize = 4_096;

const DATAS: usize = 1_024;

const BLANK: Cell = Cell {
    kind: 0,
    value: 0,
    links: [0; 3],
};

// The memory that the programs lend, a vector for each use: 2,048 nodes, 256 letters, 256 iterator, 4,096 shelf and 1,024 data cells.
#[derive(Drop)]
pub struct Reserve {
    cells: Vec<Cell>,
    letters: Vec<Letter>,
    iters: Vec<IterCell>,
    shelves: Vec<IterCell>,
    datas: Vec<DataCell>,
}

impl Reserve {
    pub fn new(heap: Global) -> Result<Reserve, AllocError>
        ensures { IfOk result Sized }
    {
        let cells = vec![in heap; BLANK; NODES]?;
        let letters = vec![in heap; Letter::Left; LETTERS]?;
        let iters = vec![in heap; IterCell::Number(0); ITERS]?;
        let shelves = vec![in heap; IterCell::Number(0); SHELVED]?;
        let datas = vec![in heap; DataCell::Question; DATAS]?;
        Ok(Reserve {
            cells,
            letters,
            iters,
            shelves,
            datas,
        })
    }

    // Lends all of it.
    pub fn lend(&mut self) -> Memory<'_>
        ensures { Lent self.old result }
    {
        Memory {
            cells: self.cells.as_mut_slice(),
            letters: self.letters.as_mut_slice(),
            iters: self.iters.as_mut_slice(),
            shelves: self.shelves.as_mut_slice(),
            datas: self.datas.as_mut_slice(),
        }
    }
}
