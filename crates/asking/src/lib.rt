// What the words of a call ask for, or what is off about them.
#![tactic(auto)]

pub mod asked;
pub mod font_files;
pub mod help;
pub mod input;
mod options;
pub mod usage;
