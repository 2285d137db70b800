ghost use Rattle.std.specs.Prelude.{◌≡◌, ◌+◌, ◌≤◌, IfOk};
ghost use Rattle.layout.specs.Faults.{first_in};
ghost use Rattle.layout.specs.Told.{verdict};
ghost use Rattle.gsub.specs.Rules.{Lies, NotRecords, rule_byte, inputs_of, plain_rule, chain_rule, rule_of, plain_counts, chain_counts, counts_of, records_of, rule_faults};
ghost use Rattle.gsub.specs.Subtables.{reverse_rule, reverse_arrays};

use crate::arrays::{Array, Entries, count_field};
use crate::follow::Target;
use crate::walk::{Start, Walk};
use layout::bytes::{Field, Width};
use layout::fault::{Rule, StructureFault};

// Where the arrays of a context rule stand.
#[derive(Clone, Copy)]
pub struct RuleArrays {
    pub backtrack: Array,
    pub input: Array,
    pub lookahead: Array,
    pub records: Array,
}

// The rule of a structure, whose arrays were found to lie in the table.
#[derive(Clone, Copy)]
pub(crate) struct ContextRule {
    pub(crate) start: Start,
    pub(crate) arrays: RuleArrays,
    ghost lies: { Lies start.byte arrays },
}

// Where a rule of type 5 or 6 stands.
#[derive(Clone, Copy)]
pub(crate) enum RulePlace {
    // In a rule set: it leaves its first input entry out.
    InSet,
    // Behind the format of a subtable.
    BehindFormat,
}

impl RulePlace {
    fn byte(self, start: Start) -> usize
        ensures byte { result ≡ rule_byte self start.byte }
        ensures near { (start.byte ≤ result) × (result ≤ start.byte + 2) }
    {
        match self {
            RulePlace::InSet => start.byte,
            RulePlace::BehindFormat => start.byte + 2,
        }
    }

    fn inputs(self) -> Entries
        ensures inputs { result ≡ inputs_of self }
        ensures fields { NotRecords result }
    {
        match self {
            RulePlace::InSet => Entries::ButFirst,
            RulePlace::BehindFormat => Entries::All,
        }
    }
}

// A place and a start go into three methods; a type of the two would have a method for each of its parts.
impl Walk<'_> {
    // The rule of the structure at `start`, by its counts and extents: of type 6 if it chains, else of type 5.
    pub(crate) fn rule(
        &self,
        chain: bool,
        place: RulePlace,
        start: Start,
    ) -> Result<ContextRule, StructureFault>
        ensures answer { verdict result ≡ first_in (counts_of chain self.now.table start.byte (rule_byte place start.byte) (inputs_of place)) }
        ensures rule { IfOk result (λ rule. (rule.arrays ≡ rule_of chain self.now.table (rule_byte place start.byte) (inputs_of place)) × (rule.start.byte ≡ start.byte)) }
    {
        if chain {
            self.chain_rule(place, start)
        } else {
            self.plain_rule(place, start)
        }
    }

    fn plain_rule(&self, place: RulePlace, start: Start) -> Result<ContextRule, StructureFault>
        ensures answer { verdict result ≡ first_in (plain_counts self.now.table start.byte (rule_byte place start.byte) (inputs_of place)) }
        ensures rule { IfOk result (λ rule. (rule.arrays ≡ plain_rule self.now.table (rule_byte place start.byte) (inputs_of place)) × (rule.start.byte ≡ start.byte)) }
    {
        let structure = self.structure(start);
        let at = place.byte(start);
        let entries = place.inputs();
        let inputs = count_field(structure, at, 1)?;
        let records = count_field(structure, at + 2, 0)?;
        let fields = entries.fields(inputs) + 2 * u64::from(records);
        structure.check_fields(at + 4, Width::Two, fields)?;
        let none = Array { at, count: 0 };
        let input = Array {
            at: at + 4,
            count: entries.listed(inputs),
        };
        let records = Array {
            at: input.past(),
            count: usize::from(records),
        };
        let arrays = RuleArrays {
            backtrack: none,
            input,
            lookahead: none,
            records,
        };
        Ok(ContextRule { start, arrays })
    }

    #[tactic(auto, unfolding(crate::specs::Rules::array_at))]
    fn chain_rule(&self, place: RulePlace, start: Start) -> Result<ContextRule, StructureFault>
        ensures answer { verdict result ≡ first_in (chain_counts self.now.table start.byte (rule_byte place start.byte) (inputs_of place)) }
        ensures rule { IfOk result (λ rule. (rule.arrays ≡ chain_rule self.now.table (rule_byte place start.byte) (inputs_of place)) × (rule.start.byte ≡ start.byte)) }
    {
        let structure = self.structure(start);
        let backtrack = Array::counted(structure, place.byte(start), 0, Entries::All)?;
        let input = Array::counted(structure, backtrack.past(), 1, place.inputs())?;
        let lookahead = Array::counted(structure, input.past(), 0, Entries::All)?;
        let records = Array::counted(structure, lookahead.past(), 0, Entries::Records)?;
        let arrays = RuleArrays {
            backtrack,
            input,
            lookahead,
            records,
        };
        Ok(ContextRule { start, arrays })
    }

    // The rule of type 8: its input is the glyph alone, and it has no records. Its glyphs stand just past its lookahead.
    #[tactic(auto, unfolding(crate::specs::Rules::array_at))]
    pub(crate) fn reverse_rule(&self, start: Start) -> Result<ContextRule, StructureFault>
        ensures answer { verdict result ≡ first_in (reverse_arrays self.now.table start.byte) }
        ensures rule { IfOk result (λ rule. (rule.arrays ≡ reverse_rule self.now.table start.byte) × (rule.start.byte ≡ start.byte)) }
    {
        let subtable = self.structure(start);
        subtable.check_fields(start.byte + 2, Width::Two, 1)?;
        let backtrack = Array::counted(subtable, start.byte + 4, 0, Entries::All)?;
        let lookahead = Array::counted(subtable, backtrack.past(), 0, Entries::All)?;
        subtable.counted(lookahead.past(), Width::Two)?;
        let none = Array {
            at: start.byte,
            count: 0,
        };
        let arrays = RuleArrays {
            backtrack,
            input: none,
            lookahead,
            records: none,
        };
        Ok(ContextRule { start, arrays })
    }

    // The lookup numbers of a rule's records.
    pub(crate) fn check_records(&self, rule: ContextRule) -> Result<(), StructureFault>
        ensures { verdict result ≡ first_in (records_of self.now.table self.now.lookups rule.start.byte rule.arrays) }
    {
        let structure = self.structure(rule.start);
        let records = rule.arrays.records;
        for k in 0..records.count {
            let at = records.at + 4 * k + 2;
            let lookup = u16::read(structure.table, at);
            structure.require(lookup < self.lookups(), Rule::Missing, at)?;
        }
        Ok(())
    }
}

// The rules of a set: of type 6 if they chain, else of type 5. As two types they would have the same lines but for this field.
#[derive(Clone, Copy, Drop)]
pub(crate) struct Rules {
    pub(crate) chain: bool,
}

impl Target for Rules {
    ghost faults = { λ rules walked s. rule_faults rules.chain walked.table walked.lookups s };

    fn check(&self, walk: &mut Walk<'_>, start: Start) -> Result<(), StructureFault> {
        let rule = walk.rule(self.chain, RulePlace::InSet, start)?;
        walk.check_records(rule)
    }
}
