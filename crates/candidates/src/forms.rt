// The candidates that a subtable lists for a glyph, by its form.
ghost use Rattle.std.specs.Prelude.{◌≡◌, ◌≢◌, ℕ, ◌+◌, ◌*◌, ◌^◌, ◌<◌, [], ◌∷◌};
ghost use Rattle.layout.specs.Bytes.{u16_at};
ghost use Rattle.gsub.specs.Candidates.{class_rules_of, form_candidates, index, input_classes, lookahead_classes, puts, rule_set};
ghost use Rattle.gsub.specs.Forms.{delta, single, multiple, alternate, ligature, glyph_rules, class_rules, coverage_rule, reverse, form_is, part_is};
ghost use Rattle.gsub.specs.Subtables.{class_count};
ghost use Rattle.candidates.specs.Sets.{SoundSet, class_kind, rule_made};
ghost use Rattle.candidates.specs.Sound.{Classed, Covered, Sound};
ghost use Rattle.candidates.specs.Views.{list_of, listed};

use crate::asks::Asks;
use crate::candidate::Candidate;
use crate::entries::EntryArray;
use crate::found::{Action, Glyphs, Records};
use crate::listed::Listed;
use crate::places::{array_at, class_of, index_of, past, rule_arrays, u16_at};
use crate::rules::Rules;
use crate::set::RuleSet;
use gsub::arrays::{Array, Entries};
use gsub::subtable::Subtable;

// The index of a glyph in the subtable's coverage.
fn index(part: &[u8], glyph: u16) -> Option<usize>
    requires { Covered part.now }
    ensures { result ≡ index part.now glyph }
{
    index_of(part, u16_at(part, 2), glyph)
}

// Field i from a byte on. No part reaches to where the sum is cut off.
fn field(part: &[u8], at: usize, i: usize) -> u16
    requires { at < 2 ^ 40 }
    ensures { result ≡ u16_at part.now (at + 2 * i) }
{
    u16_at(part, i.saturating_mul(2).saturating_add(at))
}

// A glyph to put, whatever stands around.
fn put(part: &[u8], glyph: u16) -> Listed<'_>
    ensures { list_of result ≡ puts (glyph ∷ []) ∷ [] }
{
    Listed::One(Candidate::putting(part, Glyphs::one(glyph)))
}

fn delta(part: &[u8], glyph: u16) -> Option<Listed<'_>>
    requires { Sound part.now delta }
    ensures { (v : ℕ) → listed result ≡ form_candidates part.now delta v glyph }
{
    let Some(_) = index(part, glyph) else {
        return None;
    };
    Some(put(part, glyph.wrapping_add(u16_at(part, 4))))
}

fn single(part: &[u8], glyph: u16) -> Option<Listed<'_>>
    requires { Sound part.now single }
    ensures { (v : ℕ) → listed result ≡ form_candidates part.now single v glyph }
{
    let Some(index) = index(part, glyph) else {
        return None;
    };
    Some(put(part, field(part, 6, index)))
}

fn multiple(part: &[u8], glyph: u16) -> Option<Listed<'_>>
    requires { Sound part.now multiple }
    ensures { (v : ℕ) → listed result ≡ form_candidates part.now multiple v glyph }
{
    let Some(index) = index(part, glyph) else {
        return None;
    };
    let set = usize::from(field(part, 6, index));
    let glyphs = Glyphs::read(part, set + 2, u16_at(part, set));
    Some(Listed::One(Candidate::putting(part, glyphs)))
}

// The alternates are counted from 1.
fn alternate(part: &[u8], value: u16, glyph: u16) -> Option<Listed<'_>>
    requires { Sound part.now alternate }
    ensures { listed result ≡ form_candidates part.now alternate value glyph }
{
    let Some(index) = index(part, glyph) else {
        return None;
    };
    let set = usize::from(field(part, 6, index));
    if value == 0 || value > u16_at(part, set) {
        return None;
    }
    Some(put(part, u16_at(part, set + 2 * usize::from(value))))
}

fn ligatures(part: &[u8], glyph: u16) -> Option<Listed<'_>>
    requires { Sound part.now ligature }
    ensures { (v : ℕ) → listed result ≡ form_candidates part.now ligature v glyph }
{
    let Some(index) = index(part, glyph) else {
        return None;
    };
    Some(Listed::Rules(RuleSet {
        part,
        start: usize::from(field(part, 6, index)),
        rules: Rules::Ligatures,
    }))
}

// The rules of a set; none where its offset is 0.
fn rule_set(part: &[u8], offset: u16, rules: Rules) -> Option<Listed<'_>>
    requires { offset ≢ 0 → SoundSet part.now rules offset }
    ensures { listed result ≡ rule_set part.now (rule_made part.now rules) offset }
{
    if offset == 0 {
        return None;
    }
    Some(Listed::Rules(RuleSet {
        part,
        start: usize::from(offset),
        rules,
    }))
}

fn glyph_rules(part: &[u8], chain: bool, glyph: u16) -> Option<Listed<'_>>
    requires { Sound part.now (glyph_rules chain) }
    ensures { (v : ℕ) → listed result ≡ form_candidates part.now (glyph_rules chain) v glyph }
{
    let Some(index) = index(part, glyph) else {
        return None;
    };
    let rules = Rules::Context {
        chain,
        backtrack: Asks::Glyph,
        input: Asks::Glyph,
        lookahead: Asks::Glyph,
    };
    rule_set(part, field(part, 6, index), rules)
}

// Where the offsets of the class definitions of input and lookahead stand.
fn input_classes(chain: bool) -> usize
    ensures { result ≡ input_classes chain }
{
    if chain { 6 } else { 4 }
}

fn lookahead_classes(chain: bool) -> usize
    ensures { result ≡ lookahead_classes chain }
{
    if chain { 8 } else { 4 }
}

// Where the count of the sets stands, behind the class definitions.
fn class_sets(chain: bool) -> usize
    ensures { result ≡ 4 + 2 * class_count chain }
{
    if chain { 10 } else { 6 }
}

// The rules of a class; none where it has no set.
fn class_set(part: &[u8], chain: bool, class: u16) -> Option<Listed<'_>>
    requires { Classed part.now chain }
    ensures { listed result ≡ class_rules_of part.now chain class }
{
    let count_at = class_sets(chain);
    if class >= u16_at(part, count_at) {
        return None;
    }
    let set = u16_at(part, count_at + 2 + 2 * usize::from(class));
    rule_set(part, set, class_kind(part, chain))
}

// What the entries of the rules ask.
fn class_kind(part: &[u8], chain: bool) -> Rules
    ensures { result ≡ class_kind part.now chain }
{
    Rules::Context {
        chain,
        backtrack: Asks::Class {
            offset: u16_at(part, 4),
        },
        input: Asks::Class {
            offset: u16_at(part, input_classes(chain)),
        },
        lookahead: Asks::Class {
            offset: u16_at(part, lookahead_classes(chain)),
        },
    }
}

fn class_rules(part: &[u8], chain: bool, glyph: u16) -> Option<Listed<'_>>
    requires { Sound part.now (class_rules chain) }
    ensures { (v : ℕ) → listed result ≡ form_candidates part.now (class_rules chain) v glyph }
{
    let Some(_) = index(part, glyph) else {
        return None;
    };
    let input = u16_at(part, input_classes(chain));
    class_set(part, chain, class_of(part, input, glyph))
}

// The glyph is in the first coverage of the input.
fn coverage_rule(part: &[u8], chain: bool, glyph: u16) -> Option<Listed<'_>>
    requires { Sound part.now (coverage_rule chain) }
    ensures { (v : ℕ) → listed result ≡ form_candidates part.now (coverage_rule chain) v glyph }
{
    let arrays = rule_arrays(part, chain, 2, Entries::All);
    let Some(_) = index_of(part, u16_at(part, arrays.input.at), glyph) else {
        return None;
    };
    let input = Array {
        at: arrays.input.at + 2,
        count: arrays.input.count.saturating_sub(1),
    };
    Some(Listed::One(Candidate {
        backtrack: EntryArray::covering(part, arrays.backtrack),
        input: EntryArray::covering(part, input),
        lookahead: EntryArray::covering(part, arrays.lookahead),
        action: Action::Nest(Records {
            part,
            at: arrays.records.at,
            count: arrays.records.count,
        }),
    }))
}

fn reverse(part: &[u8], glyph: u16) -> Option<Listed<'_>>
    requires { Sound part.now reverse }
    ensures { (v : ℕ) → listed result ≡ form_candidates part.now reverse v glyph }
{
    let Some(index) = index(part, glyph) else {
        return None;
    };
    let backtrack = array_at(part, 4, Entries::All);
    let lookahead = array_at(part, past(backtrack), Entries::All);
    Some(Listed::One(Candidate {
        backtrack: EntryArray::covering(part, backtrack),
        input: EntryArray::none(part),
        lookahead: EntryArray::covering(part, lookahead),
        action: Action::Put(Glyphs::one(field(part, past(lookahead) + 2, index))),
    }))
}

// What a subtable lists. A glyph that it does not cover has no candidates.
pub(crate) fn list(subtable: Subtable<'_>, value: u16, glyph: u16) -> Option<Listed<'_>>
    requires { Sound (part_is subtable) (form_is subtable) }
    ensures { listed result ≡ form_candidates (part_is subtable.entry) (form_is subtable.entry) value glyph }
{
    match subtable {
        Subtable::Delta { part } => delta(part, glyph),
        Subtable::Single { part } => single(part, glyph),
        Subtable::Multiple { part } => multiple(part, glyph),
        Subtable::Alternate { part } => alternate(part, value, glyph),
        Subtable::Ligature { part } => ligatures(part, glyph),
        Subtable::GlyphRules { chain, part } => glyph_rules(part, chain, glyph),
        Subtable::ClassRules { chain, part } => class_rules(part, chain, glyph),
        Subtable::CoverageRule { chain, part } => coverage_rule(part, chain, glyph),
        Subtable::Reverse { part } => reverse(part, glyph),
    }
}
