ghost use Rattle.std.specs.Prelude.{◌≡◌, ◌≤◌, [], IfOk, vec_capacity};

use crate::program::{Shape, Subterm, TypeCell};
use crate::scope::Scope;
use std::alloc::{AllocError, Global};

// A program as memory holds it: sub-terms and type cells, parts before wholes, by number and in no box, since no heap is asked for while
// a text is read.
#[derive(Drop)]
pub struct Program {
    pub subterms: Vec<Subterm>,
    pub types: Vec<TypeCell>,
    ghost subterm_room: { 2048 ≤ vec_capacity subterms },
    ghost type_room: { 4096 ≤ vec_capacity types },
}

impl Program {
    ghost use Rattle.std.specs.Prelude.{◌<◌, length};
    ghost use Rattle.syntax.specs.Steps.{IsPut, IsTypePut};

    // Empty, with room for all that a text may hold.
    fn new(heap: Global) -> Result<Program, AllocError>
        ensures { IfOk result (λ p. (p.subterms.items ≡ []) × (p.types.items ≡ [])) }
    {
        Ok(Program {
            subterms: Vec::with_capacity(heap, 2048)?,
            types: Vec::with_capacity(heap, 4096)?,
        })
    }

    pub(crate) fn clear(&mut self)
        ensures { (self.new.subterms.items ≡ []) × (self.new.types.items ≡ []) }
    {
        self.subterms.clear();
        self.types.clear();
    }

    // Puts a sub-term after the others.
    pub(crate) fn put(&mut self, place: usize, shape: Shape) -> usize
        requires { length self.old.subterms.items < 2048 }
        ensures { IsPut place shape self.old self.new result }
    {
        let at = self.subterms.len();
        self.subterms.push_reserved(Subterm { place, shape });
        at
    }

    // Puts a type cell after the others. One function for both lists would ask for the room that the ghost fields give, so it would be no
    // plainer.
    pub(crate) fn put_type(&mut self, cell: TypeCell) -> usize
        requires { length self.old.types.items < 4096 }
        ensures { IsTypePut cell self.old self.new result }
    {
        let at = self.types.len();
        self.types.push_reserved(cell);
        at
    }
}

// All memory that reading needs, had once and used as often as one likes.
#[derive(Drop)]
pub struct Tables {
    pub program: Program,
    pub(crate) scope: Scope,
}

impl Tables {
    pub fn new(heap: Global) -> Result<Tables, AllocError>
        ensures { IfOk result (λ t. (t.program.subterms.items ≡ []) × (t.program.types.items ≡ [])) }
    {
        Ok(Tables {
            program: Program::new(heap)?,
            scope: Scope::new(heap)?,
        })
    }
}
