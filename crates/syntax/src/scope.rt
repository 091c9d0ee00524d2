ghost use Rattle.std.specs.Prelude.{◌≤◌, vec_capacity};

use crate::refusal::Refusal;
use arrayvec::ArrayVec;
use std::alloc::{AllocError, Global};

// The letters of a name, copied from the text: the tables outlive it.
pub(crate) type Name = ArrayVec<u8, 16>;

// A name in force, with the place of its binder, and whether it was used.
#[derive(Drop)]
pub(crate) struct InForce {
    pub(crate) place: usize,
    pub(crate) name: Name,
    // A flag by itself: the place and the name are there either way.
    pub(crate) used: bool,
}

// All names bound so far, those in force from the outermost, and the first fault of names so far. Lists and no maps: no heap is asked
// for while a text is read.
#[derive(Drop)]
pub(crate) struct Scope {
    pub(crate) bound: Vec<Name>,
    pub(crate) in_force: Vec<InForce>,
    pub(crate) least: Option<Refusal>,
    ghost bound_room: { 4096 ≤ vec_capacity bound },
    ghost force_room: { 256 ≤ vec_capacity in_force },
}

impl Scope {
    ghost use Rattle.std.specs.Prelude.{◌≡◌, IfOk};
    ghost use Rattle.syntax.specs.Scopes.{no_names};
    ghost use Rattle.syntax.specs.Held.{names_of};

    // With no names, and room for all that a text may bind.
    pub(crate) fn new(heap: Global) -> Result<Scope, AllocError>
        ensures { IfOk result (λ s. names_of s ≡ no_names) }
    {
        Ok(Scope {
            bound: Vec::with_capacity(heap, 4096)?,
            in_force: Vec::with_capacity(heap, 256)?,
            least: None,
        })
    }

    pub(crate) fn clear(&mut self)
        ensures { names_of self.new ≡ no_names }
    {
        self.bound.clear();
        self.in_force.clear();
        self.least = None;
    }
}
