// Paragraphs: a text is shaped once, and its lines are given out from the glyphs that are there already.
#![tactic(auto)]

pub mod blank;
pub mod calls;
mod fill;
mod hand;
pub mod line;
pub mod perform;
pub mod refusal;
pub mod shaped;
pub mod slip;
#[cfg(test)]
mod tests;
pub mod width;
