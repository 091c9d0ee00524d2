// The variables in force, from the outermost.
ghost use Rattle.std.specs.Prelude.{◌≡◌, ℕ, ◌≤◌, ◌<◌, [], ◌∷◌, ◌++◌, length, take, unwrap_or, IfOk, vec_capacity};
ghost use Rattle.language.specs.Hypotheses.{cell_of};

use std::alloc::{AllocError, Global};

const HYPOTHESES: usize = 4096;

// A variable, known by the place of its binder's name, and its type's cell.
#[derive(Clone, Copy, PartialEq, Eq, Debug)]
pub(crate) struct Hypothesis {
    binder: usize,
    cell: usize,
}

// A list, searched from its end and no map: no heap is asked for while a text is checked.
#[derive(Drop)]
pub(crate) struct Context {
    hypotheses: Vec<Hypothesis>,
    ghost fits: { 4096 ≤ vec_capacity hypotheses },
}

impl Context {
    pub(crate) fn new(heap: Global) -> Result<Context, AllocError>
        ensures { IfOk result (λ context. context.hypotheses.items ≡ []) }
    {
        let hypotheses = Vec::with_capacity(heap, HYPOTHESES)?;
        Ok(Context { hypotheses })
    }

    pub(crate) fn clear(&mut self)
        ensures { self.new.hypotheses.items ≡ [] }
    {
        self.hypotheses.clear();
    }

    // How many variables are in force.
    pub(crate) fn len(&self) -> usize
        ensures { result ≡ length self.now.hypotheses.items }
    {
        self.hypotheses.len()
    }

    pub(crate) fn bind(&mut self, binder: usize, cell: usize)
        requires { length self.old.hypotheses.items < 4096 }
        ensures { self.new.hypotheses.items ≡ self.old.hypotheses.items ++ (record { binder = binder; cell = cell } ∷ []) }
    {
        self.hypotheses.push_reserved(Hypothesis { binder, cell });
    }

    // All but the first variables go out of force.
    pub(crate) fn release(&mut self, before: usize)
        ensures { self.new.hypotheses.items ≡ take before self.old.hypotheses.items }
    {
        self.hypotheses.truncate(before);
    }

    // The cell of a variable's type, as its innermost hypothesis has it.
    pub(crate) fn cell_of(&self, binder: usize) -> Option<usize>
        ensures { (d : ℕ) → unwrap_or result d ≡ cell_of d self.now.hypotheses.items binder }
    {
        self.hypotheses
            .iter()
            .rev()
            .find(|hypothesis| hypothesis.binder == binder)
            .map(|hypothesis| hypothesis.cell)
    }
}
