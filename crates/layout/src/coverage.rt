ghost use Rattle.std.specs.Prelude.{◌≡◌, IfOk, None};
ghost use Rattle.layout.specs.Coverages.{kind_of, coverage_ranges, coverage_faults, coverage_index};
ghost use Rattle.layout.specs.Faults.{first_in};
ghost use Rattle.layout.specs.Ranges.{ranges_of, size};
ghost use Rattle.layout.specs.Told.{verdict};

use crate::array::{Kind, Rising, Third};
use crate::fault::StructureFault;
use crate::structure::Structure;

// The coverage that a structure without a fault is. A search rests on the order of its ranges, and
// a count on their start indices.
#[derive(Clone, Copy)]
pub struct Coverage<'a> {
    pub structure: Structure<'a>,
    ghost accepted: { first_in (coverage_faults structure.table.now structure.start) ≡ None },
}

// How a coverage of a format writes its ranges.
fn kind_of(format: u16) -> Kind
    ensures { result ≡ kind_of format }
{
    if format == 1 {
        Kind::Glyphs
    } else {
        Kind::Records
    }
}

impl<'a> Coverage<'a> {
    // The coverage that a structure is, if it has no fault; else its first.
    pub fn checked(structure: Structure<'a>) -> Result<Coverage<'a>, StructureFault>
        ensures answer { verdict result
            ≡ first_in (coverage_faults structure.entry.table.now structure.entry.start) }
        ensures coverage { IfOk result (λ coverage. coverage.structure ≡ structure.entry) }
    {
        let kind = kind_of(structure.format(2)?);
        structure.check_ranges(kind, Third::StartIndex)?;
        Ok(Coverage { structure })
    }

    // Its ranges.
    fn ranges(&self) -> Rising<'a>
        ensures { ranges_of result.laid.array
            ≡ coverage_ranges self.now.structure.table.now self.now.structure.start }
    {
        let kind = kind_of(self.structure.u16_in(0));
        self.structure.ranges(kind)
    }

    // How many glyphs it has: the last one's index and one. From 32 bits to `usize` there is no `From`.
    pub fn glyph_count(&self) -> usize
        ensures { result
            ≡ size (coverage_ranges self.now.structure.table.now self.now.structure.start) }
    {
        match self.ranges().laid.last() {
            Some(range) => {
                range.value as usize + range.last.saturating_sub(range.first) as usize + 1
            }
            None => 0,
        }
    }

    // The index of a glyph, if it is covered.
    pub fn index_of(&self, glyph: u16) -> Option<usize>
        ensures { result
            ≡ coverage_index self.now.structure.table.now self.now.structure.start glyph }
    {
        let glyph = u32::from(glyph);
        let range = self.ranges().find(glyph)?;
        Some(range.value as usize + (glyph - range.first) as usize)
    }
}
