ghost use Rattle.std.specs.Prelude.{ℕ, ◌≤◌, length, slice_index};
ghost use Rattle.stack.specs.Cells.{slot_room};

use crate::Edit;
use crate::stacks::{Stack, ask};
use machine::Reason;

const SHELVES: usize = 64;

const DEPTH: usize = 64;

// 64 stacks of 64 cells each in one lent memory, counted from 1: shelf j has cells 64(j - 1) to 64j - 1.
// A shelf that misses one of its cells is full while it holds nothing, and so is one that is not among the 64.
#[derive(Drop)]
pub struct Shelves<'a, T> {
    cells: &'a mut [T],
    // The heights alone, not 64 stacks: those would each hold a slice, and a generic struct has no array of a type parameter.
    // They are widened by `as`: by `usize::from` the proofs of `shelf` and `edit` did not close.
    heights: [u8; 64],
    ghost fits: { (k : ℕ) → slice_index heights k ≤ slot_room (length cells.now) k },
}

#[tactic(auto, using(crate::proofs::Shelved::shelving), unfolding(crate::specs::Shelving::complete))]
impl<'a, T: Copy> Shelves<'a, T> {
    ghost use Rattle.std.specs.Prelude.{◌≡◌, ◌/◌, ◌<◌, min, [], reverse, replicate, Some, None, ◌==◌};
    ghost use Rattle.stack.specs.declared.edits.Edit.TheVariants.{Push};
    ghost use Rattle.stack.specs.Edits.{top_of, rest_of, Asked};
    ghost use Rattle.stack.specs.Shelving.{shelves, complete, shelf, with_shelf, shelf_room, cells_held, ShelfAnswered, ShelfPlace};

    pub fn new(cells: &'a mut [T]) -> Shelves<'a, T>
        ensures empty { shelves result ≡ replicate 64 [] }
        ensures complete { complete result ≡ min 64 (length cells.old / 64) }
    {
        Shelves {
            cells,
            heights: [0; SHELVES],
        }
    }

    // How many shelves have all their cells.
    pub fn complete(&self) -> usize
        ensures { result ≡ complete self.now }
    {
        SHELVES.min(self.cells.len() / DEPTH)
    }

    // How many shelves stand before shelf j, if it has all its cells.
    fn place(&self, j: u32) -> Option<usize>
        ensures { elim result [ Some k ↦ ShelfPlace self.now j k | None ↦ shelf_room (complete self.now) j ≡ 0 ] }
    {
        let complete = self.complete();
        (j as usize).checked_sub(1).filter(|k| *k < complete)
    }

    // The cells in use of shelf j, the top last.
    fn shelf(&self, j: u32) -> &[T]
        ensures { shelf j (shelves self.now) ≡ reverse result.now }
    {
        match self.place(j) {
            Some(k) => {
                let start = DEPTH * k;
                &self.cells[start..start + self.heights[k] as usize]
            }
            None => &[],
        }
    }

    // How many cells all the shelves hold.
    pub fn count(&self) -> usize
        ensures { result ≡ cells_held (shelves self.now) }
    {
        self.heights.iter().map(|height| *height as usize).sum()
    }

    pub fn is_empty(&self) -> bool
        ensures { result ≡ (cells_held (shelves self.now) == 0) }
    {
        self.count() == 0
    }

    // The top of shelf j.
    pub fn top(&self, j: u32) -> Option<T>
        ensures { result ≡ top_of (shelf j (shelves self.now)) }
    {
        self.shelf(j).last().copied()
    }

    // Asks whether shelf j has `n` more free cells.
    pub fn room_for(&self, j: u32, n: usize) -> Result<(), Reason>
        ensures { Asked (shelf_room (complete self.now) j) (length (shelf j (shelves self.now))) n result }
    {
        match self.place(j) {
            Some(k) => ask(DEPTH, self.heights[k] as usize, n),
            None => ask(0, 0, n),
        }
    }

    // Does an edit of shelf j, or refuses it and changes nothing where a cell is wanting. That as many shelves are complete as before is a
    // promise of each call, and no fact about one value.
    pub fn edit(&mut self, j: u32, e: Edit<T>) -> Result<(), Reason>
        ensures answer { ShelfAnswered (shelves self.old) (complete self.old) j e result (shelves self.new) }
        ensures complete { complete self.new ≡ complete self.old }
    {
        // a shelf that is kept is not looked at
        if let Edit::Keep = e {
            return Ok(());
        }
        let Some(k) = self.place(j) else {
            return ask(0, 0, e.growth());
        };
        let start = DEPTH * k;
        let cells = &mut self.cells[start..start + DEPTH];
        let mut stack = Stack {
            cells: &mut *cells,
            height: self.heights[k] as usize,
        };
        let done = stack.edit(e);
        // At most 64, by the stack's own fact.
        self.heights[k] = stack.height as u8;
        // the cells are looked at once more: only then does the check know what the stack left in them
        prove_eq!(cells.len(), DEPTH);
        done
    }

    pub fn push(&mut self, j: u32, x: T) -> Result<(), Reason>
        ensures answer { ShelfAnswered (shelves self.old) (complete self.old) j (Push x) result (shelves self.new) }
        ensures complete { complete self.new ≡ complete self.old }
    {
        self.edit(j, Edit::Push(x))
    }

    pub fn pop(&mut self, j: u32) -> Option<T>
        ensures value { result ≡ top_of (shelf j (shelves self.old)) }
        ensures held { shelves self.new ≡ with_shelf j (rest_of (shelf j (shelves self.old))) (shelves self.old) }
        ensures complete { complete self.new ≡ complete self.old }
    {
        let top = self.top(j);
        let _ = self.edit(j, Edit::Pop);
        top
    }
}
