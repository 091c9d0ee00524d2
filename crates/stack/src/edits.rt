ghost use Rattle.std.specs.Prelude.{◌≡◌};
ghost use Rattle.stack.specs.Edits.{growth};

// What one step does to one stack.
#[derive(Clone, Copy)]
pub enum Edit<T> {
    Keep,
    Push(T),
    Pop,
    // the top becomes this cell
    Replace(T),
    // the top becomes the first cell, and the second goes on top of it
    Split(T, T),
    // the two upper cells become this one
    Join(T),
}

impl<T: Copy> Edit<T> {
    // How many cells more the stack then holds at most.
    pub fn growth(&self) -> usize
        ensures { result ≡ growth self.now }
    {
        match self {
            Edit::Keep | Edit::Pop | Edit::Replace(_) | Edit::Join(_) => 0,
            Edit::Push(_) | Edit::Split(_, _) => 1,
        }
    }
}
