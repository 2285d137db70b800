// The structures that subtables lead to.
ghost use Rattle.std.specs.Prelude.{refl};
ghost use Rattle.layout.specs.Classes.{class_faults};
ghost use Rattle.layout.specs.Coverages.{coverage_faults};
ghost use Rattle.gsub.specs.declared.seen.Kind.TheVariants.{Coverage as CoverageKind, Classes as ClassesKind, LigatureSet as LigatureSetKind};
ghost use Rattle.gsub.specs.Seen.{rule_set_kind, rule-set-faults};
ghost use Rattle.gsub.specs.Subtables.{sequence_faults, alternates_faults, ligature_faults};

use crate::arrays::{Array, Entries};
use crate::follow::{ListOf, Remembered, Target};
use crate::rules::Rules;
use crate::seen::Kind;
use crate::walk::{Start, Walk};
use layout::bytes::Width;
use layout::class::ClassDefinition;
use layout::coverage::Coverage;
use layout::fault::StructureFault;

#[derive(Clone, Copy, Drop)]
pub(crate) struct Coverages;

impl Target for Coverages {
    ghost faults = { λ _ walked. coverage_faults walked.table };

    fn check(&self, walk: &mut Walk<'_>, start: Start) -> Result<(), StructureFault> {
        let structure = walk.structure(start);
        Coverage::checked(structure)?;
        Ok(())
    }
}

impl Remembered for Coverages {
    ghost kind = { λ _. CoverageKind };

    ghost faults_of_kind = { λ _ _ _. refl };

    fn kind(&self) -> Kind {
        Kind::Coverage
    }
}

#[derive(Clone, Copy, Drop)]
pub(crate) struct Classes;

impl Target for Classes {
    ghost faults = { λ _ walked. class_faults walked.table };

    fn check(&self, walk: &mut Walk<'_>, start: Start) -> Result<(), StructureFault> {
        let structure = walk.structure(start);
        ClassDefinition::checked(structure)?;
        Ok(())
    }
}

impl Remembered for Classes {
    ghost kind = { λ _. ClassesKind };

    ghost faults_of_kind = { λ _ _ _. refl };

    fn kind(&self) -> Kind {
        Kind::Classes
    }
}

// Sets of type 2, and of type 3.
#[derive(Clone, Copy, Drop)]
pub(crate) struct Sequences;

impl Target for Sequences {
    ghost faults = { λ _ walked. sequence_faults walked.table };

    fn check(&self, walk: &mut Walk<'_>, start: Start) -> Result<(), StructureFault> {
        Array::counted(walk.structure(start), start.byte, 1, Entries::All)?;
        Ok(())
    }
}

#[derive(Clone, Copy, Drop)]
pub(crate) struct Alternates;

impl Target for Alternates {
    ghost faults = { λ _ walked. alternates_faults walked.table };

    fn check(&self, walk: &mut Walk<'_>, start: Start) -> Result<(), StructureFault> {
        walk.structure(start).counted(start.byte, Width::Two)?;
        Ok(())
    }
}

#[derive(Clone, Copy, Drop)]
pub(crate) struct Ligatures;

impl Target for Ligatures {
    ghost faults = { λ _ walked. ligature_faults walked.table };

    fn check(&self, walk: &mut Walk<'_>, start: Start) -> Result<(), StructureFault> {
        let structure = walk.structure(start);
        structure.field::<u16>(start.byte)?;
        Array::counted(structure, start.byte + 2, 1, Entries::ButFirst)?;
        Ok(())
    }
}

impl Remembered for ListOf<Ligatures> {
    ghost kind = { λ _. LigatureSetKind };

    ghost faults_of_kind = { λ _ _ _. refl };

    fn kind(&self) -> Kind {
        Kind::LigatureSet
    }
}

impl Remembered for ListOf<Rules> {
    ghost kind = { λ list. rule_set_kind list.0.chain };

    ghost faults_of_kind = { λ list walked s. rule-set-faults list.0.chain walked.table walked.lookups s };

    fn kind(&self) -> Kind {
        if self.0.chain {
            Kind::ChainRuleSet
        } else {
            Kind::RuleSet
        }
    }
}
