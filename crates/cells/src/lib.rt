// Networks as memory: cells that a host lends, their kinds, ports and links.
#![tactic(auto)]

pub mod kinds;
pub mod links;

pub use kinds::{Cell, Kind, Port, UnknownKind};
pub use links::{ABSENT, are_linked, cell_of, is_inside, link_of};
