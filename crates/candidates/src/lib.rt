// Which candidate of a lookup of a checked GSUB table matches at a position of a run.
#![tactic(auto)]

mod asks;
mod attempt;
mod candidate;
mod choose;
mod entries;
mod forms;
pub mod found;
pub mod glyphs;
mod list;
mod listed;
pub mod lookup;
mod lookups;
mod made;
mod meets;
mod places;
pub mod records;
mod rules;
mod set;
#[cfg(test)]
mod tests;
