ghost use Rattle.std.specs.Prelude.{◌≡◌, ◌≤◌, [], ◌∷◌, ◌++◌, length, if◌then◌else◌, nat_lt};
ghost use Rattle.font.specs.Told.{gave, refused, told};

use crate::refusal::Refusal;
use crate::table::{Blank, Table};

// A character, and the one that stands in for it where a font has no glyph.
#[derive(Clone, Copy, Debug, PartialEq)]
pub struct Pair {
    pub character: u32,
    pub stand_in: u32,
}

impl Blank for Pair {
    ghost BLANK = { record { character = 0; stand_in = 0 } };

    const BLANK: Pair = Pair {
        character: 0,
        stand_in: 0,
    };
}

// At most 32 pairs, in the order in which they were added.
#[derive(Drop)]
pub struct PairTable {
    pairs: Table<Pair, 32>,
    ghost few: { length pairs ≤ 32 },
}

impl PairTable {
    ghost use Rattle.font.specs.StandIn.{pairs_of};

    pub fn new() -> PairTable
        ensures { pairs_of result ≡ [] }
    {
        PairTable {
            pairs: Table::new(),
        }
    }

    // The pairs, in the order in which they were added.
    pub fn pairs(&self) -> &[Pair]
        ensures pairs { result.now ≡ pairs_of self.now }
        ensures few { length result.now ≤ 32 }
    {
        self.pairs.items()
    }

    // One pair more; a 33rd is refused and changes nothing.
    pub fn add(&mut self, pair: Pair) -> Result<(), Refusal>
        ensures answer { told result ≡ (if nat_lt (length (pairs_of self.old)) 32 then gave tt else refused 13 []) }
        ensures pairs { pairs_of self.new ≡ (if nat_lt (length (pairs_of self.old)) 32 then pairs_of self.old ++ pair ∷ [] else pairs_of self.old) }
    {
        self.pairs.push(pair).map_err(|_| Refusal::TooManyPairs)
    }
}
