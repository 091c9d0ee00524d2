// All that checking works in, had before a text is looked at.
ghost use Rattle.std.specs.Prelude.{◌≡◌};
ghost use Rattle.language.specs.Checks.{cells_of, typings_of};
ghost use Rattle.language.specs.Accepts.{Leaves, Answers};

use crate::checker::Checker;
use crate::counts::Facts;
use crate::program::Program;
use std::alloc::{AllocError, Global};
use syntax::read;
use syntax::refusal::Refusal;
use syntax::tables::Tables;

#[derive(Drop)]
pub struct Workspace {
    tables: Tables,
    checker: Checker,
}

impl Workspace {
    // Reserves all memory; checking a text asks for none.
    pub fn new(heap: Global) -> Result<Workspace, AllocError> {
        let tables = Tables::new(heap)?;
        let checker = Checker::new(heap)?;
        Ok(Workspace { tables, checker })
    }

    // Checks a text, and gives its program, or the refusal of the first question that says no.
    pub fn check(&mut self, text: &[u8]) -> Result<Program<'_>, Refusal>
        ensures { Answers text.now result }
    {
        let (root, facts) = self.run(text)?;
        Ok(self.program(root, facts))
    }

    fn run(&mut self, text: &[u8]) -> Result<(usize, Facts), Refusal>
        ensures { Leaves text.now self.new.tables.program.subterms.items (cells_of self.new.checker) (typings_of self.new.checker) result }
    {
        let root = read(text, &mut self.tables)?;
        let facts = self.checker.conclude(
            &self.tables.program.subterms,
            &self.tables.program.types,
            root,
        )?;
        Ok((root, facts))
    }

    fn program(&self, root: usize, facts: Facts) -> Program<'_>
        ensures subterms { result.subterms.now ≡ self.now.tables.program.subterms.items }
        ensures types { result.types.now ≡ cells_of self.now.checker }
        ensures typings { result.typings.now ≡ typings_of self.now.checker }
        ensures root { result.root ≡ root }
        ensures facts { result.facts ≡ facts }
    {
        Program {
            subterms: &self.tables.program.subterms,
            types: &self.checker.types.cells,
            typings: &self.checker.typings,
            root,
            facts,
        }
    }
}
