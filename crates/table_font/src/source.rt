ghost use Rattle.std.specs.Prelude.{◌≡◌, ℕ, false, is_ok, if◌then◌else◌, IfOk};
ghost use Rattle.layout.specs.Faults.{first_in};
ghost use Rattle.layout.specs.Told.{table_verdict};
ghost use Rattle.table_font.specs.Cmap.{glyph_of};
ghost use Rattle.table_font.specs.Gdef.{glyph_class, mark_class_of, in_set};
ghost use Rattle.table_font.specs.Hmtx.{advance_of};
ghost use Rattle.table_font.specs.TableFont.{font_faults, font_of_tables};

use crate::table::{Cmap, Gdef, Hmtx, TableFont};
use font::glyph_class::GlyphClass;
use font::source::{FontSource, MeasuredSource};
use layout::fault::TableFault;

// A cmap subtable with no groups.
const NO_CMAP: [u8; 16] = [0, 12, 0, 0, 0, 0, 0, 16, 0, 0, 0, 0, 0, 0, 0, 0];

// One metric, of zeros.
const NO_HMTX: [u8; 4] = [0, 0, 0, 0];

impl<'a> TableFont<'a> {
    // A font with no glyphs: every answer is 0, and no mark set holds anything.
    pub fn new() -> TableFont<'a>
        ensures glyphs { (c : ℕ) → glyph_of result.cmap.table.now c ≡ 0 }
        ensures classes { (g : ℕ) → glyph_class result.gdef.table.now g ≡ 0 }
        ensures mark_classes { (g : ℕ) → mark_class_of result.gdef.table.now g ≡ 0 }
        ensures mark_sets { (k g : ℕ) → in_set result.gdef.table.now k g ≡ false }
        ensures advances { (g : ℕ) → advance_of result.hmtx.table.now result.hmtx.metrics g ≡ 0 }
    {
        TableFont {
            cmap: Cmap { table: &NO_CMAP },
            gdef: Gdef { table: &[] },
            hmtx: Hmtx {
                table: &NO_HMTX,
                metrics: 1,
            },
        }
    }

    // The font of three tables, or their first fault.
    pub fn checked(
        cmap: &'a [u8],
        gdef: &'a [u8],
        hmtx: &'a [u8],
        metrics: u16,
    ) -> Result<TableFont<'a>, TableFault>
        ensures answer { table_verdict result ≡ first_in (font_faults cmap.now gdef.now hmtx.now metrics) }
        ensures font { IfOk result (λ font. (font.cmap.table.now ≡ cmap.now) × (font.gdef.table.now ≡ gdef.now) × (font.hmtx.table.now ≡ hmtx.now) × (font.hmtx.metrics ≡ metrics)) }
    {
        Ok(TableFont {
            cmap: Cmap::read(cmap)?,
            gdef: Gdef::read(gdef)?,
            hmtx: Hmtx::read(hmtx, metrics)?,
        })
    }

    // Takes tables in the place of those so far, if they have no fault. A refusal changes nothing.
    pub fn read(
        &mut self,
        cmap: &'a [u8],
        gdef: &'a [u8],
        hmtx: &'a [u8],
        metrics: u16,
    ) -> Result<(), TableFault>
        ensures answer { table_verdict result ≡ first_in (font_faults cmap.now gdef.now hmtx.now metrics) }
        ensures cmap { self.new.cmap.table.now ≡ (if is_ok result then cmap.now else self.old.cmap.table.now) }
        ensures gdef { self.new.gdef.table.now ≡ (if is_ok result then gdef.now else self.old.gdef.table.now) }
        ensures hmtx { self.new.hmtx.table.now ≡ (if is_ok result then hmtx.now else self.old.hmtx.table.now) }
        ensures metrics { self.new.hmtx.metrics ≡ (if is_ok result then metrics else self.old.hmtx.metrics) }
    {
        *self = TableFont::checked(cmap, gdef, hmtx, metrics)?;
        Ok(())
    }
}

impl FontSource for TableFont<'_> {
    ghost means = { λ font. font_of_tables font.cmap.table.now font.gdef.table.now };

    fn glyph(&self, character: u32) -> u16 {
        self.cmap.glyph(character)
    }

    fn class(&self, glyph: u16) -> Option<GlyphClass> {
        self.gdef.class(glyph)
    }

    fn mark_class(&self, glyph: u16) -> u16 {
        self.gdef.mark_class(glyph)
    }

    fn in_mark_set(&self, set: u16, glyph: u16) -> bool {
        self.gdef.in_mark_set(set, glyph)
    }
}

impl MeasuredSource for TableFont<'_> {
    ghost advances = { λ font. advance_of font.hmtx.table.now font.hmtx.metrics };

    fn advance(&self, glyph: u16) -> u16 {
        self.hmtx.advance(glyph)
    }
}
