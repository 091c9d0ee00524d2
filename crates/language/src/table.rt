// The types that a check meets, each with its measure beside it.
ghost use Rattle.std.specs.Prelude.{◌≡◌, ◌+◌, ◌<◌, ◌≤◌, [], ◌∷◌, ◌++◌, length, IfOk, vec_capacity, slice_index_or};
ghost use Rattle.syntax.specs.declared.program.TypeCell.TheVariants.{N};
ghost use Rattle.language.specs.Measures.{type_room, number, HeightsOf, NaturalsOf, IsType, SameTypes};

use crate::measure::Measure;
use crate::types::{measure_of, measured, same};
use std::alloc::{AllocError, Global};
use syntax::program::TypeCell;

// Cells for the annotations of a text, for one new type of each sub-term, and for N.
const TYPE_ROOM: usize = 4097;

// That a number names a cell is true of a table only, so it is asked beside the number and stands in no type.
// Two vectors, and not one of pairs, since a checked program lends its cells alone, as one slice that stands in memory.
#[derive(Drop)]
pub(crate) struct TypeTable {
    pub(crate) cells: Vec<TypeCell>,
    pub(crate) measures: Vec<Measure>,
    ghost cells_fit: { type_room ≤ vec_capacity cells },
    ghost measures_fit: { type_room ≤ vec_capacity measures },
    ghost long: { length measures.items ≡ length cells.items },
    ghost heights: { HeightsOf cells.items measures.items },
    ghost counts: { NaturalsOf cells.items measures.items },
}

impl TypeTable {
    pub(crate) fn new(heap: Global) -> Result<TypeTable, AllocError>
        ensures { IfOk result (λ t. t.cells.items ≡ []) }
    {
        let cells = Vec::with_capacity(heap, TYPE_ROOM)?;
        let measures = Vec::with_capacity(heap, TYPE_ROOM)?;
        Ok(TypeTable { cells, measures })
    }

    pub(crate) fn clear(&mut self)
        ensures { self.new.cells.items ≡ [] }
    {
        self.cells.clear();
        self.measures.clear();
    }

    // Adds a cell, and gives its number.
    pub(crate) fn add(&mut self, cell: TypeCell) -> usize
        requires { length self.old.cells.items < type_room }
        ensures place { result ≡ length self.old.cells.items }
        ensures cells { self.new.cells.items ≡ self.old.cells.items ++ (cell ∷ []) }
    {
        let place = self.cells.len();
        let measure = measured(&self.measures, cell);
        self.cells.push_reserved(cell);
        self.measures.push_reserved(measure);
        place
    }

    // Adds cells, in their order.
    pub(crate) fn load(&mut self, cells: &[TypeCell])
        requires { length self.old.cells.items + length cells.now ≤ type_room }
        ensures { self.new.cells.items ≡ self.old.cells.items ++ cells.now }
    {
        for cell in cells {
            let _ = self.add(*cell);
        }
    }

    pub(crate) fn measure(&self, i: usize) -> Measure
        ensures { result ≡ slice_index_or self.now.measures.items i number }
    {
        measure_of(&self.measures, i)
    }

    pub(crate) fn cell(&self, i: usize) -> TypeCell
        requires { IsType self.now.cells.items i }
        ensures { slice_index_or self.now.cells.items i N ≡ result }
    {
        self.cells[i]
    }

    pub(crate) fn same(&self, i: usize, j: usize) -> bool
        requires left { IsType self.now.cells.items i }
        requires right { IsType self.now.cells.items j }
        ensures { SameTypes self.now.cells.items i j result }
    {
        same(&self.cells, i, j)
    }
}
