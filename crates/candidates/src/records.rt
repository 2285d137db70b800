// The records of a rule, one by one.
ghost use Rattle.std.specs.Prelude.{◌≡◌, length, map, slice_get};
ghost use Rattle.candidates.specs.Actions.{record_of, records_of};

use crate::found::{Record, Records};
use crate::places::u16_at;

impl Records<'_> {
    pub fn len(&self) -> usize
        ensures { result ≡ length (records_of self.now) }
    {
        self.count
    }

    pub fn get(&self, i: usize) -> Option<Record>
        ensures { result ≡ slice_get (map record_of (records_of self.now)) i }
    {
        if i >= self.len() {
            return None;
        }
        let at = self.at + 4 * i;
        Some(Record {
            index: u16_at(self.part, at),
            lookup: u16_at(self.part, at + 2),
        })
    }
}
