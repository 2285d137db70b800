ghost use Rattle.std.specs.Prelude.{◌≡◌, map, IfOk, IfErr, OnOk, IsUtf8};
ghost use Rattle.std.specs.List.{AllByRecursion};
ghost use Rattle.std.specs.Option.{SomeIff};
ghost use Rattle.std.specs.Str.Lines.{lines};
ghost use Rattle.font.specs.StandIn.{pairs_of};
ghost use Rattle.parsing.specs.Pairs.{IsPairLine, NotPairs, pair_in};
ghost use Rattle.parsing.specs.Text.{text_in};

use crate::error::ReadError;
use crate::number::number_of;
use crate::text::text_of;
use font::pairs::{Pair, PairTable};

// A line of a stand-in file: two character numbers, parted by a tab.
pub fn pair_of(line: &str) -> Option<Pair>
    ensures { SomeIff result (IsPairLine line.now) (pair_in line.now) }
{
    let (character, stand_in) = line.split_once('\t')?;
    Some(Pair {
        character: number_of(character)?,
        stand_in: number_of(stand_in)?,
    })
}

// Stand-in pairs, one a line, of which a table holds 32. What is read first is told first: a line that is no pair, or a 33rd pair.
pub fn pairs(bytes: &[u8]) -> Result<PairTable, ReadError>
    ensures utf8 { OnOk result (IsUtf8 bytes.now) }
    ensures lines { OnOk result (AllByRecursion IsPairLine (lines (text_in bytes.now))) }
    ensures pairs { IfOk result (λ table. pairs_of table ≡ map pair_in (lines (text_in bytes.now))) }
    ensures not_read { IfErr result (λ error. NotPairs bytes.now error) }
{
    let text = text_of(bytes)?;
    let mut table = PairTable::new();
    // A loop, since the contract says that each line was a pair.
    for (index, line) in text.lines().enumerate() {
        let Some(pair) = pair_of(line) else {
            return Err(ReadError::Line(index + 1));
        };
        table.add(pair)?;
    }
    Ok(table)
}
