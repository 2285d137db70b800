// The entries of an array as those of a pattern.
ghost use Rattle.std.specs.Prelude.{◌≡◌, ◌<◌};
ghost use Rattle.candidates.specs.Asked.{test_of, tests_of};
ghost use Rattle.candidates.specs.Views.{entry_at};

use crate::asks::Asks;
use crate::entries::EntryArray;
use crate::places::{class_of, index_of, u16_at};
use matching::seek::Entries;

impl Entries for EntryArray<'_> {
    ghost tests = { λ entries. tests_of entries.part.now entries.asks entries.array };

    fn len(&self) -> usize {
        self.array.count
    }

    fn meets(&self, k: usize, glyph: u16) -> bool {
        k < self.array.count && self.entry_meets(k, glyph)
    }
}

impl EntryArray<'_> {
    fn entry_meets(&self, k: usize, glyph: u16) -> bool
        requires { k < self.now.array.count }
        ensures { result ≡ test_of self.now.part.now self.now.asks (entry_at self.now k) glyph }
    {
        let entry = u16_at(self.part, self.array.at + 2 * k);
        match self.asks {
            Asks::Glyph => glyph == entry,
            Asks::Class { offset } => class_of(self.part, offset, glyph) == entry,
            Asks::Coverage => index_of(self.part, entry, glyph).is_some(),
        }
    }
}
