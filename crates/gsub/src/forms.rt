// The check of a subtable, by its form.
ghost use Rattle.std.specs.Prelude.{◌≡◌, ◌+◌, IfOk, None, nat_le};
ghost use Rattle.layout.specs.Bytes.{u16_at};
ghost use Rattle.layout.specs.Coverages.{coverage_faults, coverage_ranges};
ghost use Rattle.layout.specs.Faults.{first_in, unless};
ghost use Rattle.layout.specs.Ranges.{size};
ghost use Rattle.layout.specs.Told.{verdict};
ghost use Rattle.gsub.specs.Rules.{context_coverages};
ghost use Rattle.gsub.specs.Forms.{delta, coverage_rule, form_is};
ghost use Rattle.gsub.specs.Subtables.{class_count, coverage_of, indexed, sets_faults, class_sets, form_faults, reverse_faults, subtable_faults};

use crate::arrays::Array;
use crate::follow::{ListOf, Offsets, Once, Target};
use crate::rules::{ContextRule, RulePlace, Rules};
use crate::seen::Kind;
use crate::structures::{Alternates, Classes, Coverages, Ligatures, Sequences};
use crate::subtable::{Decided, Subtable};
use crate::walk::{Start, Walk};
use layout::bytes::{Field, Width};
use layout::coverage::Coverage;
use layout::fault::{Rule, StructureFault};
use layout::structure::Structure;

impl Walk<'_> {
    // The coverage of the subtable at `start`. Answers where it starts.
    fn check_coverage(&mut self, start: Start) -> Result<Start, StructureFault>
        ensures answer { verdict result ≡ first_in (coverage_of self.old.table start.byte) }
        ensures target { IfOk result
            (λ target. target.byte ≡ start.byte + u16_at self.old.table (start.byte + 2)) }
        ensures accepted { IfOk result
            (λ target. first_in (coverage_faults self.old.table target.byte) ≡ None) }
        ensures same { self.new ≡ self.old }
    {
        let target = self.follow(start, start.byte + 2)?;
        Once(Coverages).check(self, target)?;
        Ok(target)
    }

    // The same. Answers how many glyphs it has, for an array that has an entry for each.
    fn check_counted_coverage(&mut self, start: Start) -> Result<usize, StructureFault>
        ensures answer { verdict result ≡ first_in (coverage_of self.old.table start.byte) }
        ensures glyphs { IfOk result (λ n. n ≡ size (coverage_ranges self.old.table (start.byte + u16_at self.old.table (start.byte + 2)))) }
        ensures same { self.new ≡ self.old }
    {
        let target = self.check_coverage(start)?;
        let structure = self.structure(target);
        Ok(Coverage { structure }.glyph_count())
    }

    // Coverage, count and an array that has an entry for each glyph of the coverage.
    fn check_indexed(&mut self, start: Start) -> Result<(), StructureFault>
        ensures answer { verdict result ≡ first_in (indexed self.old.table start.byte) }
        ensures same { self.new ≡ self.old }
    {
        let subtable = self.structure(start);
        subtable.check_fields(start.byte + 2, Width::Two, 2)?;
        let count = subtable.u16_in(4);
        subtable.check_fields(start.byte + 6, Width::Two, u64::from(count))?;
        let glyphs = self.check_counted_coverage(start)?;
        check_enough(subtable, glyphs, start.byte + 4)
    }

    // The same where the array has offsets.
    fn check_sets<C: Target>(
        &mut self,
        sets: &C,
        null: bool,
        start: Start,
    ) -> Result<(), StructureFault>
        ensures answer { verdict result ≡ first_in (sets_faults null self.old.table start.byte (C.Target.faults sets.now self.old)) }
        ensures same { self.new ≡ self.old }
    {
        self.check_indexed(start)?;
        let array = Array {
            at: start.byte + 6,
            count: usize::from(self.structure(start).u16_in(4)),
        };
        self.check_each(sets, Offsets { start, array }, null)
    }

    // Format 2 of types 5 and 6, with one class definition or three.
    fn check_class_sets<C: Target>(
        &mut self,
        sets: &C,
        classes: u16,
        start: Start,
    ) -> Result<(), StructureFault>
        ensures answer { verdict result ≡ first_in (class_sets self.old.table start.byte classes (C.Target.faults sets.now self.old)) }
        ensures same { self.new ≡ self.old }
    {
        let subtable = self.structure(start);
        subtable.check_fields(start.byte + 2, Width::Two, u64::from(classes) + 2)?;
        let array = Array {
            at: start.byte + 4,
            count: usize::from(classes),
        };
        let sets_at = array.past() + 2;
        let count = subtable.u16_in(4 + 2 * array.count);
        subtable.check_fields(sets_at, Width::Two, u64::from(count))?;
        self.check_coverage(start)?;
        self.check_each(&Once(Classes), Offsets { start, array }, true)?;
        let array = Array {
            at: sets_at,
            count: usize::from(count),
        };
        self.check_each(sets, Offsets { start, array }, true)
    }

    // The coverages of a rule. As a loop over three arrays it would need a proof of its own.
    fn check_context(&mut self, rule: ContextRule) -> Result<(), StructureFault>
        ensures answer { verdict result ≡ first_in (context_coverages self.old.table rule.start.byte rule.arrays) }
        ensures same { self.new ≡ self.old }
    {
        let start = rule.start;
        let array = rule.arrays.backtrack;
        self.check_each(&Once(Coverages), Offsets { start, array }, false)?;
        let array = rule.arrays.input;
        self.check_each(&Once(Coverages), Offsets { start, array }, false)?;
        let array = rule.arrays.lookahead;
        self.check_each(&Once(Coverages), Offsets { start, array }, false)
    }

    // Format 3 of types 5 and 6.
    fn check_coverage_rule(&mut self, chain: bool, start: Start) -> Result<(), StructureFault>
        ensures answer { verdict result ≡ first_in (form_faults self.old.table self.old.lookups start.byte (coverage_rule chain)) }
        ensures same { self.new ≡ self.old }
    {
        let rule = self.rule(chain, RulePlace::BehindFormat, start)?;
        self.check_records(rule)?;
        self.check_context(rule)
    }

    fn check_reverse(&mut self, start: Start) -> Result<(), StructureFault>
        ensures answer { verdict result ≡ first_in (reverse_faults self.old.table start.byte) }
        ensures same { self.new ≡ self.old }
    {
        let subtable = self.structure(start);
        let rule = self.reverse_rule(start)?;
        let glyphs = self.check_counted_coverage(start)?;
        check_enough(subtable, glyphs, rule.arrays.lookahead.past())?;
        self.check_context(rule)
    }

    fn check_delta(&mut self, start: Start) -> Result<(), StructureFault>
        ensures answer { verdict result ≡ first_in (form_faults self.old.table self.old.lookups start.byte delta) }
        ensures same { self.new ≡ self.old }
    {
        let subtable = self.structure(start);
        subtable.check_fields(start.byte + 2, Width::Two, 2)?;
        self.check_coverage(start)?;
        Ok(())
    }

    // What stands behind the format of a subtable, by its form.
    pub(crate) fn check_form(
        &mut self,
        subtable: Subtable<'_>,
        start: Start,
    ) -> Result<(), StructureFault>
        ensures answer { verdict result ≡ first_in (form_faults self.old.table self.old.lookups start.byte (form_is subtable.entry)) }
        ensures same { self.new ≡ self.old }
    {
        match subtable {
            Subtable::Delta { part: _ } => self.check_delta(start),
            Subtable::Single { part: _ } => self.check_indexed(start),
            Subtable::Multiple { part: _ } => self.check_sets(&Sequences, false, start),
            Subtable::Alternate { part: _ } => self.check_sets(&Alternates, false, start),
            Subtable::Ligature { part: _ } => {
                self.check_sets(&Once(ListOf(Ligatures)), false, start)
            }
            Subtable::GlyphRules { chain, part: _ } => {
                self.check_sets(&Once(ListOf(Rules { chain })), true, start)
            }
            Subtable::ClassRules { chain, part: _ } => {
                self.check_class_sets(&Once(ListOf(Rules { chain })), class_count(chain), start)
            }
            Subtable::CoverageRule { chain, part: _ } => self.check_coverage_rule(chain, start),
            Subtable::Reverse { part: _ } => self.check_reverse(start),
        }
    }

    // A subtable of a type that does not move, walked once.
    pub(crate) fn check_subtable(
        &mut self,
        lookup_type: u16,
        start: Start,
    ) -> Result<(), StructureFault>
        ensures answer { verdict result ≡ first_in
            (subtable_faults self.old.table self.old.lookups start.byte lookup_type) }
        ensures same { self.new ≡ self.old }
    {
        let own = OfType { lookup_type };
        match Kind::of_type(lookup_type) {
            Some(kind) => self.check_once(&own, kind, start),
            None => own.check(self, start),
        }
    }
}

// The subtables of a type that does not move.
#[derive(Clone, Copy, Drop)]
pub(crate) struct OfType {
    pub(crate) lookup_type: u16,
}

impl Target for OfType {
    ghost faults = { λ own walked s.
        subtable_faults walked.table walked.lookups s own.lookup_type };

    fn check(&self, walk: &mut Walk<'_>, start: Start) -> Result<(), StructureFault> {
        let structure = walk.structure(start);
        let format = structure.field::<u16>(start.byte)?;
        match Decided::of(
            self.lookup_type,
            format,
            true,
            &structure.table[start.byte..],
        ) {
            Some(Decided::Own(subtable)) => walk.check_form(subtable, start),
            _ => Err(structure.broken(Rule::Unknown, start.byte)),
        }
    }
}

// The array whose count stands at a byte has an entry for each of so many glyphs.
fn check_enough(subtable: Structure<'_>, glyphs: usize, at: usize) -> Result<(), StructureFault>
    ensures { verdict result ≡ first_in (unless (nat_le glyphs (u16_at subtable.entry.table.now at)) 4 subtable.entry.start at) }
{
    let entries = usize::from(u16::read(subtable.table, at));
    subtable.require(glyphs <= entries, Rule::Bounds, at)
}

// How many class definitions stand in a subtable of format 2.
fn class_count(chain: bool) -> u16
    ensures { result ≡ class_count chain }
{
    if chain { 3 } else { 1 }
}
