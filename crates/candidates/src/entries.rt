ghost use Rattle.std.specs.Prelude.{◌^◌, ◌<◌};
ghost use Rattle.gsub.specs.Rules.{past};
ghost use Rattle.candidates.specs.Asked.{Askable};

use crate::asks::Asks;
use gsub::arrays::Array;

// An array of a subtable as the entries of a pattern. What they ask can be asked: the class definition or the coverages have no faults.
#[derive(Clone, Copy)]
pub(crate) struct EntryArray<'a> {
    pub(crate) part: &'a [u8],
    pub(crate) array: Array,
    pub(crate) asks: Asks,
    ghost near: { past array < 2 ^ 41 },
    ghost askable: { Askable part.now asks array },
}
