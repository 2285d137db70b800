// GSUB: the check of a table, and what it means.
#![tactic(auto)]

pub mod arrays;
pub mod check;
mod follow;
mod forms;
mod lookups;
pub mod meaning;
pub mod rules;
mod seen;
mod structures;
pub mod subtable;
pub mod table;
mod walk;
