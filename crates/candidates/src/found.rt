ghost use Rattle.std.specs.Prelude.{◌+◌, ◌*◌, ◌^◌, ◌<◌, ◌≤◌};

use matching::pattern::Span;

// A sequence lookup record: run a lookup at the input glyph with this index.
#[derive(Clone, Copy)]
pub struct Record {
    pub index: u16,
    pub lookup: u16,
}

// The records of a rule, by their place in the table.
#[derive(Clone, Copy)]
pub struct Records<'a> {
    pub(crate) part: &'a [u8],
    pub(crate) at: usize,
    pub(crate) count: usize,
    ghost near: { at + 4 * count < 2 ^ 40 },
}

// The glyphs that a match puts.
#[derive(Clone, Copy)]
pub struct Glyphs {
    pub list: [u16; 64],
    pub count: usize,
    ghost fits: { count ≤ 64 },
}

// What a match does.
#[derive(Clone, Copy)]
pub enum Action<'a> {
    // Puts glyphs in place of the glyph at the position.
    Put(Glyphs),
    // Joins the input into a ligature.
    Join(u16),
    // Runs records.
    Nest(Records<'a>),
}

// The candidate that matched: its action, the clusters of the leftmost and the rightmost glyph matched, and how many further input glyphs it has.
#[derive(Clone, Copy)]
pub struct Found<'a> {
    pub action: Action<'a>,
    pub span: Span,
    pub inputs: usize,
}
