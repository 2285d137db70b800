ghost use Rattle.std.specs.Prelude.{◌≡◌, ◌≢◌, ◌+◌, ◌<◌, ◌≤◌, length, IfOk, IfSome, None};
ghost use Rattle.layout.specs.Bytes.{u16_at};
ghost use Rattle.layout.specs.Classes.{class_faults, class_at, class_ranges, listed_class, list_faults, value_in};
ghost use Rattle.layout.specs.Faults.{first_in};
ghost use Rattle.layout.specs.Told.{verdict, byte_verdict};
ghost use Rattle.layout.specs.Ranges.{holding};

use crate::array::{Kind, Range, Third};
use crate::bytes::{Field, Width};
use crate::fault::{ByteFault, StructureFault};
use crate::structure::Structure;

// The class definition that a structure without a fault is.
#[derive(Clone, Copy)]
pub struct ClassDefinition<'a> {
    pub structure: Structure<'a>,
    ghost accepted: { first_in (class_faults structure.table.now structure.start) ≡ None },
}

// Format 1: the first glyph, the count and the classes.
fn check_list(structure: Structure<'_>) -> Result<(), ByteFault>
    requires { structure.start + 2 ≤ length structure.table.now }
    ensures { byte_verdict result
        ≡ first_in (list_faults structure.entry.table.now structure.entry.start) }
{
    structure.check_fields(structure.start + 2, Width::Two, 2)?;
    let count = u64::from(structure.u16_in(4));
    structure.check_fields(structure.start + 6, Width::Two, count)
}

impl<'a> ClassDefinition<'a> {
    // The class definition that a structure is, if it has no fault; else its first.
    pub fn checked(structure: Structure<'a>) -> Result<ClassDefinition<'a>, StructureFault>
        ensures answer { verdict result
            ≡ first_in (class_faults structure.entry.table.now structure.entry.start) }
        ensures classes { IfOk result (λ classes. classes.structure ≡ structure.entry) }
    {
        match structure.format(2)? {
            1 => check_list(structure)?,
            _ => structure.check_ranges(Kind::Records, Third::Any)?,
        }
        Ok(ClassDefinition { structure })
    }

    // The class of a glyph; 0 where it is not listed.
    pub fn class_of(&self, glyph: u16) -> u16
        ensures { result ≡ class_at self.now.structure.table.now self.now.structure.start glyph }
    {
        if self.structure.u16_in(0) == 1 {
            return self.listed_class(glyph);
        }
        match self.range_of(glyph) {
            // Below 65,536, as `range_of` says; a conversion that can fail would add a case.
            Some(range) => range.value as u16,
            None => 0,
        }
    }

    // The class of a glyph by format 1.
    fn listed_class(&self, glyph: u16) -> u16
        ensures { result ≡ listed_class self.now.structure.table.now self.now.structure.start glyph }
    {
        let first = self.structure.u16_in(2);
        if glyph < first || glyph - first >= self.structure.u16_in(4) {
            return 0;
        }
        self.structure.u16_in(6 + 2 * usize::from(glyph - first))
    }

    // The range of format 2 that holds a glyph.
    fn range_of(&self, glyph: u16) -> Option<Range>
        requires { u16_at self.now.structure.table.now self.now.structure.start ≢ 1 }
        ensures range { result
            ≡ holding glyph (class_ranges self.now.structure.table.now self.now.structure.start) }
        ensures bound { IfSome result (λ range. range.value < 65536) }
    {
        self.structure.ranges(Kind::Records).find(u32::from(glyph))
    }
}
