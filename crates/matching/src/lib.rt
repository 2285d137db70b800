// What a lookup passes over, and the next glyph that it does not.
#![tactic(auto)]

pub mod glyphs;
pub mod passing;
pub mod pattern;
pub mod seek;
#[cfg(test)]
mod tests;
