ghost use Rattle.std.specs.Prelude.{◌≡◌};
ghost use Rattle.cells.specs.Ports.{nodes_of, inside, end, linked, ShowsNode};

use crate::kinds::Cell;

// The link that stands for none: a cell in the host's memory has a number there, so it is no `Option`.
pub const ABSENT: u32 = 4_294_967_295;

// A slice and a number in it, as `get` takes them: a struct made of both for each call would be no plainer.

// Whether the port lies in one of the cells.
pub fn is_inside(cells: &[Cell], port: u32) -> bool
    ensures { result ≡ inside (nodes_of cells.now) port }
{
    port != ABSENT && ((port / 3) as usize) < cells.len()
}

// The port at the other end, as the cell holds it; none where the port lies in no cell.
pub fn link_of(cells: &[Cell], port: u32) -> Option<u32>
    ensures { result ≡ end (nodes_of cells.now) port }
{
    if !is_inside(cells, port) {
        return None;
    }
    let cell = &cells[(port / 3) as usize];
    Some(cell.links[(port % 3) as usize])
}

// The cell in whose node the port would lie, if there is one.
pub fn cell_of(cells: &[Cell], port: u32) -> Option<Cell>
    ensures { ShowsNode (nodes_of cells.now) port result }
{
    cells.get((port / 3) as usize).copied()
}

// Whether both ports lie in cells, each the other's link.
pub fn are_linked(cells: &[Cell], a: u32, b: u32) -> bool
    ensures { result ≡ linked (nodes_of cells.now) a b }
{
    link_of(cells, a) == Some(b) && link_of(cells, b) == Some(a)
}
