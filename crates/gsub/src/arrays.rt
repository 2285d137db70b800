ghost use Rattle.std.specs.Prelude.{◌≡◌, ◌+◌, ◌*◌, ◌^◌, ◌<◌, ◌≤◌, length, IfOk};
ghost use Rattle.layout.specs.Bytes.{u16_at};
ghost use Rattle.layout.specs.Faults.{first_in};
ghost use Rattle.layout.specs.Told.{verdict};
ghost use Rattle.gsub.specs.Follow.{count_faults};
ghost use Rattle.gsub.specs.Rules.{listed, fields_for, past, array_at, counted_array};

use layout::bytes::Width;
use layout::fault::{Rule, StructureFault};
use layout::structure::Structure;

// What an array has by its count.
#[derive(Clone, Copy)]
pub enum Entries {
    // A field for each entry.
    All,
    // The same, but the first entry is not listed.
    ButFirst,
    // Records of two fields.
    Records,
}

// Where an array stands, and how many entries it lists: a place and not a slice, since faults are told by their bytes.
#[derive(Clone, Copy)]
pub struct Array {
    pub at: usize,
    pub count: usize,
}

impl Entries {
    pub fn listed(self, count: u16) -> usize
        ensures listed { result ≡ listed self count }
        ensures bound { result ≤ 65535 }
    {
        match self {
            Entries::All | Entries::Records => usize::from(count),
            Entries::ButFirst => usize::from(count).saturating_sub(1),
        }
    }

    pub(crate) fn fields(self, count: u16) -> u64
        ensures fields { result ≡ fields_for self count }
        ensures bound { result ≤ 131070 }
    {
        match self {
            Entries::All => u64::from(count),
            Entries::ButFirst => u64::from(count).saturating_sub(1),
            Entries::Records => 2 * u64::from(count),
        }
    }
}

// The count at a byte, from `low` to 64.
pub(crate) fn count_field(
    structure: Structure<'_>,
    at: usize,
    low: u16,
) -> Result<u16, StructureFault>
    ensures answer { verdict result ≡ first_in (count_faults structure.entry.table.now structure.entry.start at low) }
    ensures count { IfOk result (λ n. (n ≡ u16_at structure.entry.table.now at) × (at + 2 ≤ length structure.entry.table.now)) }
{
    let count = structure.field::<u16>(at)?;
    structure.require(low <= count && count <= 64, Rule::Bounds, at)?;
    Ok(count)
}

impl Array {
    // The array behind the count at a byte.
    #[tactic(auto, unfolding(crate::specs::Rules::array_at, crate::specs::Rules::counted_array))]
    pub(crate) fn counted(
        structure: Structure<'_>,
        at: usize,
        low: u16,
        entries: Entries,
    ) -> Result<Array, StructureFault>
        ensures answer { verdict result ≡ first_in (counted_array structure.entry.table.now structure.entry.start at low entries) }
        ensures array { IfOk result (λ a. (a ≡ array_at structure.entry.table.now at entries) × (at + 2 + 2 * fields_for entries (u16_at structure.entry.table.now at) ≤ length structure.entry.table.now) × (past a ≤ length structure.entry.table.now)) }
    {
        let count = count_field(structure, at, low)?;
        structure.check_fields(at + 2, Width::Two, entries.fields(count))?;
        Ok(Array {
            at: at + 2,
            count: entries.listed(count),
        })
    }

    // Just past it, if its entries have one field each.
    pub(crate) fn past(self) -> usize
        requires { past self < 2 ^ 64 }
        ensures { result ≡ past self }
    {
        self.at + 2 * self.count
    }
}
