ghost use Rattle.std.specs.Prelude.{◌≡◌, ◌<◌, ◌≤◌, length};
ghost use Rattle.stack.specs.Edits.{Asked};

use crate::Edit;
use machine::Reason;

// A stack over memory that the host lends: the `height` lowest cells are in use, and the last of these is the top.
#[derive(Drop)]
pub struct Stack<'a, T> {
    pub(crate) cells: &'a mut [T],
    pub(crate) height: usize,
    ghost fits: { height ≤ length cells.now },
}

// Asks whether, above `height` of so many cells, `n` more are free. No method: a shelf that is missing has no stack.
pub(crate) fn ask(room: usize, height: usize, n: usize) -> Result<(), Reason>
    requires { height ≤ room }
    ensures { Asked room height n result }
{
    if n <= room - height {
        Ok(())
    } else {
        Err(Reason::Full)
    }
}

#[tactic(auto, using(crate::proofs::Holds::stacking), unfolding(crate::specs::Stacks::held, crate::specs::Stacks::room, crate::specs::Cells::stacked))]
impl<'a, T: Copy> Stack<'a, T> {
    ghost use Rattle.std.specs.Prelude.{◌-◌, min, [], ◌∷◌, reverse, ◌==◌};
    ghost use Rattle.stack.specs.declared.edits.Edit.TheVariants.{Push};
    ghost use Rattle.stack.specs.Edits.{top_of, rest_of, replaced, Answered};
    ghost use Rattle.stack.specs.Stacks.{held, room};

    // An empty stack over the lent cells, of which it uses the first `limit` at most; the others are out of its reach.
    pub fn new(cells: &'a mut [T], limit: usize) -> Stack<'a, T>
        ensures empty { held result ≡ [] }
        ensures room { room result ≡ min limit (length cells.old) }
    {
        let room = limit.min(cells.len());
        Stack {
            cells: &mut cells[..room],
            height: 0,
        }
    }

    // How many cells it holds.
    pub fn height(&self) -> usize
        ensures { result ≡ length (held self.now) }
    {
        self.height
    }

    // How many cells it can hold.
    pub fn room(&self) -> usize
        ensures { result ≡ room self.now }
    {
        self.cells.len()
    }

    pub fn is_empty(&self) -> bool
        ensures { result ≡ (length (held self.now) == 0) }
    {
        self.height == 0
    }

    // The cells in use, the top last.
    pub fn as_slice(&self) -> &[T]
        ensures { held self.now ≡ reverse result.now }
    {
        &self.cells[..self.height]
    }

    pub fn top(&self) -> Option<T>
        ensures { result ≡ top_of (held self.now) }
    {
        self.as_slice().last().copied()
    }

    // The cell below the top.
    pub fn second(&self) -> Option<T>
        ensures { result ≡ top_of (rest_of (held self.now)) }
    {
        match self.as_slice() {
            [.., second, _] => Some(*second),
            _ => None,
        }
    }

    // Asks whether `n` more cells are free.
    pub fn room_for(&self, n: usize) -> Result<(), Reason>
        ensures { Asked (room self.now) (length (held self.now)) n result }
    {
        ask(self.cells.len(), self.height, n)
    }

    // One cell more, where one is free.
    fn put(&mut self, x: T)
        requires { length (held self.old) < room self.old }
        ensures held { held self.new ≡ x ∷ held self.old }
        ensures room { room self.new ≡ room self.old }
        ensures cells { self.new.cells.ghost_name ≡ self.old.cells.ghost_name }
    {
        self.cells[self.height] = x;
        self.height += 1;
    }

    // One cell less, if there is one.
    fn drop_top(&mut self)
        ensures held { held self.new ≡ rest_of (held self.old) }
        ensures room { room self.new ≡ room self.old }
        ensures cells { self.new.cells.ghost_name ≡ self.old.cells.ghost_name }
    {
        self.height = self.height.saturating_sub(1);
    }

    // Another top, if there is one.
    fn replace(&mut self, x: T)
        ensures held { held self.new ≡ replaced x (held self.old) }
        ensures room { room self.new ≡ room self.old }
        ensures cells { self.new.cells.ghost_name ≡ self.old.cells.ghost_name }
    {
        if let Some(top) = self.height.checked_sub(1) {
            self.cells[top] = x;
        }
    }

    // Does an edit, or refuses it and changes nothing where a cell is wanting. That the room and the memory stay is a promise of each
    // call, and no fact about one value.
    pub fn edit(&mut self, e: Edit<T>) -> Result<(), Reason>
        ensures answer { Answered (held self.old) (room self.old) e result (held self.new) }
        ensures room { room self.new ≡ room self.old }
        ensures cells { self.new.cells.ghost_name ≡ self.old.cells.ghost_name }
    {
        match e {
            Edit::Keep => {}
            Edit::Push(x) => {
                self.room_for(1)?;
                self.put(x);
            }
            Edit::Pop => self.drop_top(),
            Edit::Replace(x) => self.replace(x),
            Edit::Split(under, top) => {
                self.room_for(1)?;
                self.replace(under);
                self.put(top);
            }
            Edit::Join(x) => {
                self.drop_top();
                self.replace(x);
            }
        }
        Ok(())
    }

    pub fn push(&mut self, x: T) -> Result<(), Reason>
        ensures answer { Answered (held self.old) (room self.old) (Push x) result (held self.new) }
        ensures room { room self.new ≡ room self.old }
    {
        self.edit(Edit::Push(x))
    }

    pub fn pop(&mut self) -> Option<T>
        ensures value { result ≡ top_of (held self.old) }
        ensures held { held self.new ≡ rest_of (held self.old) }
        ensures room { room self.new ≡ room self.old }
    {
        let top = self.top();
        self.drop_top();
        top
    }
}
