// What the words of a call and the lines of its files say: numbers, characters, pairs, plans, breaks and scripts.
#![tactic(auto)]

pub mod error;
pub mod list;
pub mod number;
pub mod pairs;
pub mod script;
#[cfg(test)]
mod tests;
pub mod text;
