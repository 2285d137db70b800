// Shaping: from a checked table, a source and a text to glyphs, break marks and hits.
#![tactic(auto)]

mod attempt;
mod pass;
pub mod plan;
pub mod refusal;
pub mod shape;
mod stop;
#[cfg(test)]
mod tests;
mod work;
