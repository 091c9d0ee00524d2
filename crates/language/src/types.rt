// Types in memory: compared, measured and added to.
ghost use Rattle.std.specs.Prelude.{◌≡◌, slice_index_or};
ghost use Rattle.language.specs.Measures.{joined, number, measure_at, IsType, SameTypes};

use crate::measure::Measure;
use syntax::program::TypeCell;

// N itself: of height 0, with one N.
const NUMBER: Measure = Measure {
    height: 0,
    naturals: 1,
};

// The measure of a function or pair type, from those of its parts.
fn join(a: Measure, b: Measure) -> Measure
    ensures { result ≡ joined a b }
{
    Measure {
        height: a.height.max(b.height).saturating_add(1),
        naturals: a.naturals.saturating_add(b.naturals),
    }
}

// A cell that is not in the table is measured as N.
// Over a slice, as `measured` asks it while a cell is put into the table.
pub(crate) fn measure_of(measures: &[Measure], i: usize) -> Measure
    ensures { result ≡ slice_index_or measures.now i number }
{
    measures.get(i).copied().unwrap_or(NUMBER)
}

// The measure of a cell, whose parts stand in the table.
pub(crate) fn measured(measures: &[Measure], cell: TypeCell) -> Measure
    ensures { result ≡ measure_at measures.now cell }
{
    match cell {
        TypeCell::N => NUMBER,
        TypeCell::Arrow(a, b) | TypeCell::Product(a, b) => {
            join(measure_of(measures, a), measure_of(measures, b))
        }
    }
}

// Two types are equal when they have the same sign and equal parts, wherever their cells stand.
// The project prescribes this form, a recursion on cells whose numbers fall.
pub(crate) fn same(cells: &[TypeCell], i: usize, j: usize) -> bool
    requires left { IsType cells.now i }
    requires right { IsType cells.now j }
    ensures { SameTypes cells.now i j result }
{
    match (cells[i], cells[j]) {
        (TypeCell::N, TypeCell::N) => true,
        (TypeCell::Arrow(a, b), TypeCell::Arrow(c, d)) => same(cells, a, c) && same(cells, b, d),
        (TypeCell::Product(a, b), TypeCell::Product(c, d)) => {
            same(cells, a, c) && same(cells, b, d)
        }
        _ => false,
    }
}
