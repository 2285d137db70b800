ghost use Rattle.std.specs.Prelude.{◌≤◌};
ghost use Rattle.candidates.specs.Sets.{SoundSet};

use crate::rules::Rules;

// A set of rules that starts at a byte of a subtable's part.
#[derive(Clone, Copy)]
pub(crate) struct RuleSet<'a> {
    pub(crate) part: &'a [u8],
    pub(crate) start: usize,
    pub(crate) rules: Rules,
    ghost near: { start ≤ 65535 },
    ghost sound: { SoundSet part.now rules start },
}
