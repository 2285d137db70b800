ghost use Rattle.std.specs.Prelude.{◌≡◌};
ghost use Rattle.label_font.specs.LabelFont.{rows_of, row_of_character, row_of_glyph, font_of_label, label_advance};

use crate::table::{LabelFont, LabelRow};
use font::glyph_class::GlyphClass;
use font::source::{FontSource, MeasuredSource};
use font::table::Blank;

impl LabelFont {
    fn row_of_character(&self, character: u32) -> LabelRow
        ensures { result ≡ row_of_character (rows_of self.now) character }
    {
        let first = self.rows().iter().find(|row| row.character == character);
        first.copied().unwrap_or(LabelRow::BLANK)
    }

    // At most one row has the glyph, since glyphs rise.
    fn row_of_glyph(&self, glyph: u16) -> LabelRow
        ensures { result ≡ row_of_glyph (rows_of self.now) glyph }
    {
        let only = self.rows().iter().find(|row| row.glyph == glyph);
        only.copied().unwrap_or(LabelRow::BLANK)
    }
}

impl FontSource for LabelFont {
    ghost means = { λ font. font_of_label (rows_of font) };

    fn glyph(&self, character: u32) -> u16 {
        if character == 0 {
            0
        } else {
            self.row_of_character(character).glyph
        }
    }

    fn class(&self, glyph: u16) -> Option<GlyphClass> {
        self.row_of_glyph(glyph).class
    }

    fn mark_class(&self, glyph: u16) -> u16 {
        self.row_of_glyph(glyph).mark_class
    }

    fn in_mark_set(&self, _set: u16, _glyph: u16) -> bool {
        false
    }
}

impl MeasuredSource for LabelFont {
    ghost advances = { λ font. label_advance (rows_of font) };

    fn advance(&self, glyph: u16) -> u16 {
        self.row_of_glyph(glyph).advance
    }
}
