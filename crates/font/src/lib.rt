// What shaping asks of a font, and layers over any source of the answers.
#![tactic(auto)]

pub mod glyph_class;
pub mod pairs;
pub mod refusal;
pub mod search;
pub mod source;
pub mod stand_in;
pub mod table;
