// The token as a machine: over shared cells and lent memory.
#![tactic(auto)]

mod lines;
mod numbers;
mod passages;
mod queries;
mod readings;
mod steps;
mod tokens;

pub use queries::{Query, Reply};
pub use readings::{number, show};
pub use tokens::Token;
