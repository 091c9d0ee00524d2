// From a text to its network, in cells that the host lends.
#![tactic(auto)]

pub mod build;
mod lay;
mod part;
mod plan;
mod ports;
mod wire;

pub use build::Builder;
