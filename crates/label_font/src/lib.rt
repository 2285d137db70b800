// The label font: a font source read from lines of decimal fields.
#![tactic(auto)]

pub mod reader;
pub mod source;
pub mod table;
