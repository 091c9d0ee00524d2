// The wires between ports, by the ports' numbers.
ghost use Rattle.std.specs.Prelude.{◌≡◌, ◌*◌, ◌<◌, ◌≤◌, length};
ghost use Rattle.geometry.specs.Memory.{link_cell};

use cells::Cell;

// Writes q as the link of the port p.
fn link(cells: &mut [Cell], p: usize, q: usize)
    requires { (p < 3 * length cells.old) × (q ≤ 4294967295) }
    ensures { cells.new ≡ link_cell cells.old p q }
{
    // A cell's link has 32 bits, as q is asked to have.
    cells[p / 3].links[p % 3] = q as u32;
}

// Wires two ports to each other.
pub(crate) fn join(cells: &mut [Cell], p: usize, q: usize)
    requires within { (p < 3 * length cells.old) × (q < 3 * length cells.old) }
    requires numbered { (p ≤ 4294967295) × (q ≤ 4294967295) }
    ensures { cells.new ≡ link_cell (link_cell cells.old p q) q p }
{
    link(cells, p, q);
    link(cells, q, p);
}
