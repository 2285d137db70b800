ghost use Rattle.std.specs.Prelude.{◌≡◌, ◌≤◌, [], length};

use font::glyph_class::GlyphClass;
use font::table::{Blank, Table};

// A line of a label file. A row with character 0 maps no character.
#[derive(Clone, Copy, Debug, PartialEq)]
pub struct LabelRow {
    pub character: u32,
    pub glyph: u16,
    pub class: Option<GlyphClass>,
    pub mark_class: u16,
    pub advance: u16,
}

// What is not listed has these values.
impl Blank for LabelRow {
    ghost use Rattle.label_font.specs.LabelFont.{no_row};

    ghost BLANK = { no_row };

    const BLANK: LabelRow = LabelRow {
        character: 0,
        glyph: 0,
        class: None,
        mark_class: 0,
        advance: 0,
    };
}

// A font of at most 256 rows, read from a label file.
#[derive(Drop)]
pub struct LabelFont {
    pub(crate) rows: Table<LabelRow, 256>,
    ghost few: { length rows ≤ 256 },
}

impl LabelFont {
    ghost use Rattle.label_font.specs.LabelFont.{rows_of};

    // A font with no rows.
    pub fn new() -> LabelFont
        ensures { rows_of result ≡ [] }
    {
        LabelFont { rows: Table::new() }
    }

    // The rows of the file, in order.
    pub fn rows(&self) -> &[LabelRow]
        ensures rows { result.now ≡ rows_of self.now }
        ensures few { length result.now ≤ 256 }
    {
        self.rows.items()
    }
}
