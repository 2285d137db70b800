// What offsets of a subtable's part lead to, and where the arrays of its rules stand.
ghost use Rattle.std.specs.Prelude.{◌≡◌, ◌+◌, ◌*◌, ◌^◌, ◌<◌, ◌≤◌, drop};
ghost use Rattle.layout.specs.Bytes.{u16_at};
ghost use Rattle.layout.specs.Classes.{class_behind};
ghost use Rattle.layout.specs.Coverages.{coverage_index};
ghost use Rattle.gsub.specs.Rules.{array_at, chain_rule, past, plain_rule, rule_of};
ghost use Rattle.candidates.specs.Asked.{Classifies, Covers, Near};

use gsub::arrays::{Array, Entries};
use gsub::rules::RuleArrays;
use layout::bytes::Field;
use layout::class::ClassDefinition;
use layout::coverage::Coverage;
use layout::structure::Structure;

// A table from a byte on.
pub(crate) fn part_from(table: &[u8], start: usize) -> &[u8]
    ensures { result.now ≡ drop start table.now }
{
    if start < table.len() {
        &table[start..]
    } else {
        &[]
    }
}

pub(crate) fn u16_at(part: &[u8], at: usize) -> u16
    ensures { result ≡ u16_at part.now at }
{
    u16::read(part, at)
}

// The index of a glyph in the coverage at an offset, if it is covered.
pub(crate) fn index_of(part: &[u8], offset: u16, glyph: u16) -> Option<usize>
    requires { Covers part.now offset }
    ensures { result ≡ coverage_index part.now offset glyph }
{
    let structure = Structure::new(part, usize::from(offset));
    Coverage { structure }.index_of(glyph)
}

// The class of a glyph by the class definition at an offset; 0 where there is none.
pub(crate) fn class_of(part: &[u8], offset: u16, glyph: u16) -> u16
    requires { Classifies part.now offset }
    ensures { result ≡ class_behind part.now offset 0 glyph }
{
    if offset == 0 {
        return 0;
    }
    let structure = Structure::new(part, usize::from(offset));
    ClassDefinition { structure }.class_of(glyph)
}

// Where an array ends whose entries have one field each.
pub(crate) fn past(array: Array) -> usize
    requires { past array < 2 ^ 64 }
    ensures { result ≡ past array }
{
    array.at + 2 * array.count
}

// The array behind the count at a byte.
#[tactic(auto, unfolding(gsub::specs::Rules::array_at))]
pub(crate) fn array_at(part: &[u8], at: usize, entries: Entries) -> Array
    requires { at < 2 ^ 36 }
    ensures array { result ≡ array_at part.now at entries }
    ensures at { result.at ≡ at + 2 }
    ensures count { result.count ≤ 65535 }
{
    Array {
        at: at + 2,
        count: entries.listed(u16_at(part, at)),
    }
}

// Where the arrays of a rule stand: of type 6 if it chains, else of type 5.
pub(crate) fn rule_arrays(part: &[u8], chain: bool, at: usize, entries: Entries) -> RuleArrays
    requires { at < 2 ^ 32 }
    ensures rule { result ≡ rule_of chain part.now at entries }
    ensures near { Near result }
{
    if chain {
        chain_rule(part, at, entries)
    } else {
        plain_rule(part, at, entries)
    }
}

fn plain_rule(part: &[u8], at: usize, entries: Entries) -> RuleArrays
    requires { at < 2 ^ 32 }
    ensures rule { result ≡ plain_rule part.now at entries }
    ensures near { Near result }
{
    let none = Array { at, count: 0 };
    let input = Array {
        at: at + 4,
        count: entries.listed(u16_at(part, at)),
    };
    let records = Array {
        at: past(input),
        count: usize::from(u16_at(part, at + 2)),
    };
    RuleArrays {
        backtrack: none,
        input,
        lookahead: none,
        records,
    }
}

fn chain_rule(part: &[u8], at: usize, entries: Entries) -> RuleArrays
    requires { at < 2 ^ 32 }
    ensures rule { result ≡ chain_rule part.now at entries }
    ensures near { Near result }
{
    let backtrack = array_at(part, at, Entries::All);
    let input = array_at(part, past(backtrack), entries);
    let lookahead = array_at(part, past(input), Entries::All);
    let records = array_at(part, past(lookahead), Entries::Records);
    RuleArrays {
        backtrack,
        input,
        lookahead,
        records,
    }
}
