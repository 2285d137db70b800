// Candidates from the bytes of rules.
ghost use Rattle.std.specs.Prelude.{◌≡◌, ◌+◌, ◌*◌, ◌^◌, ◌<◌, ◌≤◌, [], map};
ghost use Rattle.layout.specs.Bytes.{u16_at};
ghost use Rattle.gsub.specs.Rules.{past};
ghost use Rattle.gsub.specs.Candidates.{covered, entries_of, ligature_at, rule_at, puts};
ghost use Rattle.candidates.specs.Actions.{glyphs_in};
ghost use Rattle.candidates.specs.Asked.{AllCover, test_of};
ghost use Rattle.candidates.specs.Sets.{RulesAsking, ligature_inputs, rule_inputs, rule_made};
ghost use Rattle.candidates.specs.Views.{asked, candidate_of};

use crate::asks::Asks;
use crate::candidate::Candidate;
use crate::entries::EntryArray;
use crate::found::{Action, Glyphs, Records};
use crate::places::{rule_arrays, u16_at};
use crate::rules::Rules;
use crate::set::RuleSet;
use gsub::arrays::{Array, Entries};

impl<'a> EntryArray<'a> {
    // No entries.
    pub(crate) fn none(part: &'a [u8]) -> EntryArray<'a>
        ensures asked { asked result ≡ [] }
        ensures count { result.array.count ≡ 0 }
    {
        EntryArray {
            part,
            array: Array { at: 0, count: 0 },
            asks: Asks::Glyph,
        }
    }

    // Those of coverages.
    pub(crate) fn covering(part: &'a [u8], array: Array) -> EntryArray<'a>
        requires near { past array < 2 ^ 41 }
        requires covers { AllCover part.now array }
        ensures asked { asked result ≡ map (covered part.now) (entries_of part.now array) }
        ensures count { result.array.count ≡ array.count }
    {
        EntryArray {
            part,
            array,
            asks: Asks::Coverage,
        }
    }
}

impl<'a> Candidate<'a> {
    // One that puts glyphs and looks at nothing around it.
    pub(crate) fn putting(part: &'a [u8], glyphs: Glyphs) -> Candidate<'a>
        ensures { candidate_of result ≡ puts (glyphs_in glyphs) }
    {
        let none = EntryArray::none(part);
        Candidate {
            backtrack: none,
            input: none,
            lookahead: none,
            action: Action::Put(glyphs),
        }
    }

    fn ligature(part: &'a [u8], at: usize) -> Candidate<'a>
        requires near { at < 2 ^ 32 }
        requires few { ligature_inputs part.now at ≤ 63 }
        ensures { candidate_of result ≡ ligature_at part.now at }
    {
        let none = EntryArray::none(part);
        let components = u16_at(part, at + 2);
        let array = Array {
            at: at + 4,
            count: Entries::ButFirst.listed(components),
        };
        Candidate {
            backtrack: none,
            input: EntryArray {
                part,
                array,
                asks: Asks::Glyph,
            },
            lookahead: none,
            action: Action::Join(u16_at(part, at)),
        }
    }

    fn rule(
        part: &'a [u8],
        at: usize,
        chain: bool,
        backtrack: Asks,
        input: Asks,
        lookahead: Asks,
    ) -> Candidate<'a>
        requires near { at < 2 ^ 32 }
        requires few { rule_inputs part.now chain at ≤ 63 }
        requires asking { RulesAsking part.now backtrack input lookahead }
        ensures { candidate_of result ≡ rule_at part.now chain (test_of part.now backtrack) (test_of part.now input) (test_of part.now lookahead) at }
    {
        let arrays = rule_arrays(part, chain, at, Entries::ButFirst);
        Candidate {
            backtrack: EntryArray {
                part,
                array: arrays.backtrack,
                asks: backtrack,
            },
            input: EntryArray {
                part,
                array: arrays.input,
                asks: input,
            },
            lookahead: EntryArray {
                part,
                array: arrays.lookahead,
                asks: lookahead,
            },
            action: Action::Nest(Records {
                part,
                at: arrays.records.at,
                count: arrays.records.count,
            }),
        }
    }
}

impl<'a> RuleSet<'a> {
    pub(crate) fn count(&self) -> u16
        ensures { result ≡ u16_at self.now.part.now self.now.start }
    {
        u16_at(self.part, self.start)
    }

    // Rule number k.
    pub(crate) fn rule(&self, k: u16) -> Candidate<'a>
        requires { k < u16_at self.now.part.now self.now.start }
        ensures { candidate_of result ≡ rule_made self.now.part.now self.now.rules (self.now.start + u16_at self.now.part.now (self.now.start + 2 + 2 * k)) }
    {
        let offset = u16_at(self.part, self.start + 2 + 2 * usize::from(k));
        let at = self.start + usize::from(offset);
        match self.rules {
            Rules::Ligatures => Candidate::ligature(self.part, at),
            Rules::Context {
                chain,
                backtrack,
                input,
                lookahead,
            } => Candidate::rule(self.part, at, chain, backtrack, input, lookahead),
        }
    }
}
