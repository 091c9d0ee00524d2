// Building: a text is checked, its network counted, and laid and wired in cells that the host lends.
ghost use Rattle.std.specs.Prelude.{◌≡◌, ◌≤◌, [], length, replicate, None, IfOk, vec_capacity};
ghost use Rattle.calculus.specs.Terms.{Term};
ghost use Rattle.network.specs.Building.{Built, Needs, Checked, Drawable, Drawn};

use crate::lay::{lay, lay_node};
use crate::part::{Next, Part, SUBTERMS};
use crate::plan::{part_at, plan};
use crate::wire::Wiring;
use cells::{Cell, Kind};
use grammar::accept;
use language::workspace::Workspace;
use std::alloc::{AllocError, Global};
use syntax::refusal::{Fault, Refusal};

/// All that building works in, had before a text is looked at: a checker; the parts of a program; and what wiring works in.
#[derive(Drop)]
pub struct Builder {
    checker: Workspace,
    parts: Vec<Part>,
    wiring: Wiring,
    ghost parts_fit: { 2048 ≤ vec_capacity parts },
}

impl Builder {
    /// Reserves all memory; building asks for none. The lists are empty, and the table has an entry for each place of a text.
    pub fn new(heap: Global) -> Result<Builder, AllocError>
        ensures { IfOk result (λ b. (b.parts.items ≡ []) × (b.wiring.starts.items ≡ replicate 16384 None) × (b.wiring.uses.items ≡ [])) }
    {
        let checker = Workspace::new(heap)?;
        let parts = Vec::with_capacity(heap, SUBTERMS)?;
        let wiring = Wiring::new(heap)?;
        Ok(Builder {
            checker,
            parts,
            wiring,
        })
    }

    // Checks a text and counts its parts, and gives the number of the whole.
    fn check(&mut self, text: &[u8]) -> Result<usize, Refusal>
        ensures { Checked text.now self.new.parts.items result }
    {
        let program = accept(text, &mut self.checker)?;
        plan(program.subterms, program.root + 1, &mut self.parts);
        Ok(program.root)
    }

    // Writes the network of part `i`: node 0 is the root, and iterators count from 1.
    fn draw(&mut self, i: usize, cells: &mut [Cell])
        requires { (t : Term) × Drawable self.old.parts.items i 16384 (length cells.old) t }
        ensures { (t : Term) → Drawable self.old.parts.items i 16384 (length cells.old) t → Drawn t cells.old cells.new }
    {
        lay_node(Kind::Root, 0, 0, cells);
        let first = Next {
            node: 1,
            iterator: 1,
        };
        lay(&self.parts, i, first, cells);
        self.wiring.wire(&self.parts, i, 1, 0, cells);
    }

    /// Builds the network of a text in the first cells, and gives the number of its nodes, the root included.
    pub fn build(&mut self, text: &[u8], cells: &mut [Cell]) -> Result<usize, Refusal>
        ensures { Built text.now cells.old cells.new result }
    {
        let whole = self.check(text)?;
        let nodes = 1 + part_at(&self.parts, whole).count.nodes;
        if nodes > cells.len() {
            return Err(Refusal {
                fault: Fault::FewCells,
                place: 0,
            });
        }
        self.draw(whole, cells);
        Ok(nodes)
    }

    /// Tells how many cells the network of a text needs.
    pub fn nodes_needed(&mut self, text: &[u8]) -> Result<usize, Refusal>
        ensures { Needs text.now result }
    {
        let whole = self.check(text)?;
        Ok(1 + part_at(&self.parts, whole).count.nodes)
    }
}
