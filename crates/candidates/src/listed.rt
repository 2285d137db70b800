// The candidates of a subtable for a glyph.
use crate::candidate::Candidate;
use crate::set::RuleSet;

#[derive(Clone, Copy)]
pub(crate) enum Listed<'a> {
    One(Candidate<'a>),
    Rules(RuleSet<'a>),
}
