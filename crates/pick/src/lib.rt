// Picking the records of a line: glyph records, break hints, or any record that tells its cluster and can take another.
#![tactic(auto)]

pub mod hint;
pub mod line;
pub mod record;
pub mod refusal;
#[cfg(test)]
mod tests;
