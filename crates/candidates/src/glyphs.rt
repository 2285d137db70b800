// The glyphs that a match puts.
ghost use Rattle.std.specs.Prelude.{◌≡◌, ◌^◌, ◌<◌, ◌≤◌, [], ◌∷◌, length};
ghost use Rattle.gsub.specs.Candidates.{fields};
ghost use Rattle.candidates.specs.Actions.{glyphs_in};

use crate::found::Glyphs;
use crate::places::u16_at;

impl Glyphs {
    // One glyph.
    pub(crate) fn one(glyph: u16) -> Glyphs
        ensures { glyphs_in result ≡ glyph ∷ [] }
    {
        let mut list = [0; 64];
        list[0] = glyph;
        Glyphs { list, count: 1 }
    }

    // So many fields of a part, from a byte on.
    pub(crate) fn read(part: &[u8], at: usize, count: u16) -> Glyphs
        requires few { count ≤ 64 }
        requires near { at < 2 ^ 40 }
        ensures { glyphs_in result ≡ fields part.now at count }
    {
        let mut list = [0; 64];
        let count = usize::from(count);
        for i in 0..count {
            list[i] = u16_at(part, at + 2 * i);
        }
        Glyphs { list, count }
    }

    pub fn as_slice(&self) -> &[u16]
        ensures glyphs { result.now ≡ glyphs_in self.now }
        ensures few { length result.now ≤ 64 }
    {
        &self.list[..self.count]
    }
}
