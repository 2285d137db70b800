// A run that shaping changes, with the matches that are open in it.
#![tactic(auto)]

pub mod editing;
pub mod frame;
#[cfg(test)]
mod tests;
