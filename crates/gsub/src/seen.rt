ghost use Rattle.std.specs.Prelude.{◌≡◌, ℕ, ◌^◌, List, IfSome, is_some};
ghost use Rattle.gsub.specs.Forms.{form_is, type_of};
ghost use Rattle.gsub.specs.Seen.{faults_of, index};
ghost use Rattle.gsub.specs.Subtables.{subtable_faults};
ghost use Rattle.gsub.specs.Tables.{movable};

use crate::subtable::{Decided, Subtable};

// The kinds of structures that the walk remembers: those that cost more to walk than to look up.
#[derive(Clone, Copy)]
pub(crate) enum Kind {
    Coverage,
    Classes,
    LigatureSet,
    RuleSet,
    ChainRuleSet,
    Single,
    Multiple,
    Alternate,
    Ligature,
    Context,
    Chain,
    Reverse,
    Lookup,
}

impl Kind {
    // The kind of a type's own subtables; none of a type that only moves, or that there is not.
    // A subtable begins with its format, so that kinds go by the type alone.
    pub(crate) fn of_type(lookup_type: u16) -> Option<Kind>
        ensures movable { is_some result ≡ movable lookup_type }
        ensures faults { (t : List ℕ) (n s : ℕ) → IfSome result
            (λ kind. faults_of kind t n s ≡ subtable_faults t n s lookup_type) }
    {
        match Decided::of(lookup_type, 1, true, &[]) {
            Some(Decided::Own(subtable)) => Some(subtable.kind()),
            _ => None,
        }
    }

    // A bit of its own.
    pub(crate) fn bit(self) -> u16
        ensures { result ≡ 2 ^ index self }
    {
        1 << (self as u16)
    }
}

impl Subtable<'_> {
    // Its kind, by its form's type.
    fn kind(self) -> Kind
        ensures { (t : List ℕ) (n s : ℕ)
            → faults_of result t n s ≡ subtable_faults t n s (type_of (form_is self.entry)) }
    {
        match self {
            Subtable::Delta { part: _ } | Subtable::Single { part: _ } => Kind::Single,
            Subtable::Multiple { part: _ } => Kind::Multiple,
            Subtable::Alternate { part: _ } => Kind::Alternate,
            Subtable::Ligature { part: _ } => Kind::Ligature,
            Subtable::GlyphRules { chain, part: _ }
            | Subtable::ClassRules { chain, part: _ }
            | Subtable::CoverageRule { chain, part: _ } => {
                if chain { Kind::Chain } else { Kind::Context }
            }
            Subtable::Reverse { part: _ } => Kind::Reverse,
        }
    }
}
