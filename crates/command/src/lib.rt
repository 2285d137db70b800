// What the program does: the words of a call, the files that they name, and what is answered.
#![tactic(auto)]

pub mod answer;
mod calls;
mod check;
mod content;
pub mod failure;
pub mod files;
mod fonts;
mod glyphs;
mod hand;
mod lines;
mod meaning;
mod performed;
mod setup;
mod shape;
