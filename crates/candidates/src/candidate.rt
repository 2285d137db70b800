ghost use Rattle.std.specs.Prelude.{◌≤◌};

use crate::entries::EntryArray;
use crate::found::Action;

// A candidate of a lookup: what must stand around the glyph, and what a match does.
#[derive(Clone, Copy)]
pub(crate) struct Candidate<'a> {
    pub(crate) backtrack: EntryArray<'a>,
    pub(crate) input: EntryArray<'a>,
    pub(crate) lookahead: EntryArray<'a>,
    pub(crate) action: Action<'a>,
    // No match has more than 64 input glyphs.
    ghost few: { input.array.count ≤ 63 },
}
