// A program as an automaton whose places are its steps, and the sets of places that a trace may come to.
#![tactic(auto)]

mod atoms;
mod automata;
mod building;
mod read;
mod rows;
mod sets;
mod tables;

pub use atoms::ATOMS;
pub use automata::Automaton;
pub use rows::Row;

#[cfg(test)]
mod tests;
