// What a token is: its state, the table of its rows, its next state, its laws and its line.
#![tactic(auto)]

mod memory;
mod table;
mod texts;

pub use memory::{DataCell, IterCell, Letter, Side};
pub use table::table_stands;
