ghost use Rattle.std.specs.Prelude.{◌≡◌, ◌≢◌, ◌+◌, ◌*◌, ◌<◌, ◌≤◌, IfOk, IfSome, IfNone, None, is_some};
ghost use Rattle.font.specs.Font.{class_number};
ghost use Rattle.layout.specs.Bytes.{u16_at, u32_at};
ghost use Rattle.layout.specs.Classes.{class_faults, class_behind};
ghost use Rattle.layout.specs.Coverages.{coverage_index};
ghost use Rattle.layout.specs.Faults.{first_in, in_turn, if_there};
ghost use Rattle.layout.specs.Told.{verdict, table_verdict};
ghost use Rattle.layout.specs.declared.fault.TableName.TheVariants.{Gdef as OfGdef};
ghost use Rattle.table_font.specs.Gdef.{classes_offset, header_faults, followed_faults, mark_sets_offset, set_faults_at, mark_sets_faults, gdef_faults, glyph_class, mark_class_of, set_holds, set_start, in_set};
ghost use Rattle.table_font.specs.TableFont.{table_faults};

use crate::check::check_table;
use crate::table::Gdef;
use font::glyph_class::GlyphClass;
use layout::bytes::{Field, Width};
use layout::class::ClassDefinition;
use layout::coverage::Coverage;
use layout::fault::{Rule, StructureFault, TableFault, TableName};
use layout::structure::Structure;

// The header: versions that are known, and as many offsets as the minor version asks for.
fn check_header(table: &[u8]) -> Result<(), StructureFault>
    ensures { verdict result ≡ first_in (header_faults table.now) }
{
    let header = Structure { table, start: 0 };
    header.require(header.field::<u16>(0)? == 1, Rule::Unknown, 0)?;
    match header.field::<u16>(2)? {
        0 => Ok(header.check_fields(4, Width::Two, 4)?),
        2 | 3 => Ok(header.check_fields(4, Width::Two, 5)?),
        _ => Err(header.broken(Rule::Unknown, 2)),
    }
}

// The class definitions of a table, by where their offsets stand in the header.
#[derive(Clone, Copy)]
enum Classes {
    OfGlyphs = 4,
    OfMarks = 10,
}

// The structure of one of them; none where the offset is 0.
fn class_structure(table: &[u8], of: Classes) -> Option<Structure<'_>>
    ensures some { IfSome result (λ classes. (classes.table.now ≡ table.now)
        × (classes.start ≡ classes_offset table.now of) × (classes_offset table.now of ≢ 0)) }
    ensures none { IfNone result (classes_offset table.now of ≡ 0) }
{
    let header = Structure { table, start: 0 };
    header.behind(of as usize)
}

// The first fault of one of them, if it is there.
fn check_classes(table: &[u8], of: Classes) -> Result<(), StructureFault>
    ensures { verdict result ≡ first_in (if_there (classes_offset table.now of) 0 (class_faults table.now)) }
{
    if let Some(structure) = class_structure(table, of) {
        ClassDefinition::checked(structure)?;
    }
    Ok(())
}

// The structure that mark sets are.
#[derive(Clone, Copy)]
struct MarkSets<'a> {
    structure: Structure<'a>,
    // Its offset has 16 bits, so that a sum with one of 32 bits fits.
    ghost near: { structure.start ≤ 65535 },
}

impl<'a> MarkSets<'a> {
    // Those of a table, which are there from minor version 2 on.
    fn of(table: &'a [u8]) -> Option<MarkSets<'a>>
        ensures some { IfSome result (λ sets. (sets.structure.table.now ≡ table.now) × (sets.structure.start ≡ mark_sets_offset table.now) × (mark_sets_offset table.now ≢ 0)) }
        ensures none { IfNone result (mark_sets_offset table.now ≡ 0) }
    {
        if u16::read(table, 2) < 2 {
            return None;
        }
        let header = Structure { table, start: 0 };
        let structure = header.behind(12)?;
        Some(MarkSets { structure })
    }

    fn check(&self) -> Result<(), StructureFault>
        ensures { verdict result ≡ first_in (mark_sets_faults self.now.structure.table.now self.now.structure.start) }
    {
        let structure = self.structure;
        structure.format(1)?;
        let count = structure.counted(structure.start + 2, Width::Four)?;
        self.check_coverages(count)
    }

    // Their coverages, in order.
    fn check_coverages(&self, count: u16) -> Result<(), StructureFault>
        ensures { verdict result ≡ first_in (in_turn (λ k i. set_faults_at self.now.structure.table.now self.now.structure.start i) 4 0 (self.now.structure.start + 4) count) }
    {
        for k in 0..count {
            self.check_set(self.byte_of(k))?;
        }
        Ok(())
    }

    // The byte at which the offset of set k stands.
    fn byte_of(&self, k: u16) -> usize
        ensures { result ≡ self.now.structure.start + 4 + 4 * k }
    {
        self.structure.start + 4 + 4 * usize::from(k)
    }

    // The set whose offset stands at a byte: a coverage, whose offset may not be 0.
    fn check_set(&self, at: usize) -> Result<(), StructureFault>
        ensures { verdict result ≡ first_in (set_faults_at self.now.structure.table.now self.now.structure.start at) }
    {
        let offset = u32::read(self.structure.table, at);
        self.structure.require(offset != 0, Rule::Unknown, at)?;
        Coverage::checked(self.set(at))?;
        Ok(())
    }

    // The structure that the offset at a byte leads to.
    fn set(&self, at: usize) -> Structure<'a>
        ensures table { result.table.now ≡ self.now.structure.table.now }
        ensures start { result.start
            ≡ self.now.structure.start + u32_at self.now.structure.table.now at }
    {
        let table = self.structure.table;
        // It fits, as 16 and 32 bits do; a conversion that can fail would add a case.
        let start = self.structure.start + u32::read(table, at) as usize;
        Structure { table, start }
    }

    // Whether set k holds a glyph.
    fn holds(&self, k: u16, glyph: u16) -> bool
        requires { first_in (mark_sets_faults self.now.structure.table.now self.now.structure.start) ≡ None }
        ensures { result ≡ set_holds self.now.structure.table.now self.now.structure.start k glyph }
    {
        k < self.structure.u16_in(2) && self.set_holds(k, glyph)
    }

    fn set_holds(&self, k: u16, glyph: u16) -> bool
        requires faults { first_in
            (mark_sets_faults self.now.structure.table.now self.now.structure.start) ≡ None }
        requires there { k < u16_at self.now.structure.table.now (self.now.structure.start + 2) }
        ensures { result ≡ is_some (coverage_index self.now.structure.table.now
            (set_start self.now.structure.table.now self.now.structure.start k) glyph) }
    {
        let structure = self.set(self.byte_of(k));
        Coverage { structure }.index_of(glyph).is_some()
    }
}

fn check_mark_sets(table: &[u8]) -> Result<(), StructureFault>
    ensures { verdict result ≡ first_in (if_there (mark_sets_offset table.now) 0 (mark_sets_faults table.now)) }
{
    match MarkSets::of(table) {
        Some(sets) => sets.check(),
        None => Ok(()),
    }
}

// What the header's offsets lead to. Attachments and carets are not followed.
fn check_followed(table: &[u8]) -> Result<(), StructureFault>
    ensures { verdict result ≡ first_in (followed_faults table.now) }
{
    check_classes(table, Classes::OfGlyphs)?;
    check_classes(table, Classes::OfMarks)?;
    check_mark_sets(table)
}

// The first fault of a GDEF table, if it has one.
pub fn check_gdef(table: &[u8]) -> Result<(), StructureFault>
    ensures { verdict result ≡ first_in (gdef_faults table.now) }
{
    // No bytes: there is no such table.
    if table.is_empty() {
        return Ok(());
    }
    check_header(table)?;
    check_followed(table)
}

impl<'a> Gdef<'a> {
    // Takes a table that has no fault.
    pub fn read(table: &'a [u8]) -> Result<Gdef<'a>, TableFault>
        ensures answer { table_verdict result ≡ first_in (table_faults OfGdef table.now (gdef_faults table.now)) }
        ensures table { IfOk result (λ gdef. gdef.table.now ≡ table.now) }
    {
        check_table(TableName::Gdef, table, check_gdef)?;
        Ok(Gdef { table })
    }

    // The class of a glyph by one of the class definitions; 0 where that is not there.
    fn class_by(&self, of: Classes, glyph: u16) -> u16
        ensures { result ≡ class_behind self.now.table.now (classes_offset self.now.table.now of) 0 glyph }
    {
        match class_structure(self.table, of) {
            Some(structure) => ClassDefinition { structure }.class_of(glyph),
            None => 0,
        }
    }

    // The class of a glyph.
    pub fn class(&self, glyph: u16) -> Option<GlyphClass>
        ensures { class_number result ≡ glyph_class self.now.table.now glyph }
    {
        GlyphClass::of(self.class_by(Classes::OfGlyphs, glyph))
    }

    // The mark attachment class of a glyph.
    pub fn mark_class(&self, glyph: u16) -> u16
        ensures { result ≡ mark_class_of self.now.table.now glyph }
    {
        self.class_by(Classes::OfMarks, glyph)
    }

    // Whether a mark set holds a glyph. A set that is not there holds none.
    pub fn in_mark_set(&self, set: u16, glyph: u16) -> bool
        ensures { result ≡ in_set self.now.table.now set glyph }
    {
        match MarkSets::of(self.table) {
            Some(sets) => sets.holds(set, glyph),
            None => false,
        }
    }
}
