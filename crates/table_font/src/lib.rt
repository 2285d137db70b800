// A font read from a cmap subtable, a GDEF table and hmtx.
#![tactic(auto)]

mod check;
pub mod cmap;
pub mod gdef;
pub mod hmtx;
pub mod source;
pub mod table;
pub mod worked;
