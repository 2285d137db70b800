ghost use Rattle.std.specs.Prelude.{◌≡◌, ◌<◌, false, [], ◌∷◌, ◌++◌, is_ok, if◌then◌else◌, Ok, Err};
ghost use Rattle.font.specs.declared.refusal.LabelField.TheVariants.{Character};
ghost use Rattle.label_font.specs.LabelFile.{OneReading, Reads, start};
ghost use Rattle.label_font.specs.LabelFont.{no_row, rows_of};
ghost use Rattle.font.specs.Told.{told_with};
ghost use Rattle.label_font.specs.LabelReader.{finish_answer, fault_at, is_field, has_room, grown, stepped, step_answer};

use crate::table::{LabelFont, LabelRow};
use font::glyph_class::GlyphClass;
use font::refusal::{LabelField, Refusal};
use font::table::Blank;

// A label file's reader, between two bytes.
#[derive(Clone, Copy)]
struct Reader {
    // The field that the next byte meets.
    next: LabelField,
    // The digits of this field so far, and what they say.
    count: u8,
    value: u32,
    // The fields of this row so far.
    row: LabelRow,
    line: u32,
    // The lowest glyph that this row may have.
    lowest: u32,
}

impl Reader {
    // At the start of a file.
    fn new() -> Reader
        ensures { result ≡ record { next = Character; count = 0; value = 0; row = no_row; line = 1; lowest = 0 } }
    {
        Reader {
            next: LabelField::Character,
            count: 0,
            value: 0,
            row: LabelRow::BLANK,
            line: 1,
            lowest: 0,
        }
    }

    fn fault(&self) -> Refusal
        ensures { result ≡ fault_at self.now }
    {
        Refusal::Label {
            line: self.line,
            field: self.next,
        }
    }

    // What this field says, if it ends here and may say any number from `lowest` to `highest`.
    fn field(&self, lowest: u32, highest: u32) -> Result<u32, Refusal>
        ensures { result ≡ (if is_field self.now lowest highest then Ok self.now.value else Err (fault_at self.now)) }
    {
        if self.count >= 1 && lowest <= self.value && self.value <= highest && self.line <= 256 {
            Ok(self.value)
        } else {
            Err(self.fault())
        }
    }

    fn go_to(&mut self, next: LabelField)
        ensures { self.new ≡ record { next = next; count = 0; value = 0; row = self.old.row; line = self.old.line; lowest = self.old.lowest } }
    {
        self.next = next;
        self.count = 0;
        self.value = 0;
    }

    fn digit(&mut self, digit: u8) -> Result<(), Refusal>
        requires { digit < 10 }
        ensures answer { result ≡ (if has_room self.old then Ok tt else Err (fault_at self.old)) }
        ensures reader { self.new ≡ (if has_room self.old then grown self.old digit else self.old) }
    {
        // The value of at most six digits is below a million.
        if self.count >= 7 || self.value >= 1_000_000 {
            return Err(self.fault());
        }
        self.count += 1;
        self.value = self.value * 10 + u32::from(digit);
        Ok(())
    }

    // Takes one byte; answers the row that it ends.
    fn step(&mut self, byte: u8) -> Result<Option<LabelRow>, Refusal>
        ensures answer { result ≡ step_answer self.old byte }
        ensures reader { self.new ≡ stepped self.old byte }
    {
        // A field is cast to the type that has its bounds; a conversion that can fail would add a case.
        match (self.next, byte) {
            (_, b'0'..=b'9') => self.digit(byte - b'0')?,
            (LabelField::Character, b'\t') => {
                self.row.character = self.field(0, 1_114_111)?;
                self.go_to(LabelField::Glyph);
            }
            (LabelField::Glyph, b'\t') => {
                self.row.glyph = self.field(self.lowest, 65_535)? as u16;
                self.go_to(LabelField::Class);
            }
            (LabelField::Class, b'\t') => {
                self.row.class = GlyphClass::of(self.field(0, 4)? as u16);
                self.go_to(LabelField::MarkClass);
            }
            (LabelField::MarkClass, b'\t') => {
                self.row.mark_class = self.field(0, 65_535)? as u16;
                self.go_to(LabelField::Advance);
            }
            (LabelField::Advance, b'\n') => {
                let advance = self.field(0, 65_535)? as u16;
                let row = LabelRow {
                    advance,
                    ..self.row
                };
                self.row = LabelRow::BLANK;
                self.lowest = u32::from(row.glyph) + 1;
                self.line += 1;
                self.go_to(LabelField::Character);
                return Ok(Some(row));
            }
            _ => return Err(self.fault()),
        }
        Ok(None)
    }

    // Whether the file may end here: behind a whole row, or at its start.
    fn finish(&self) -> Result<(), Refusal>
        ensures { result ≡ finish_answer self.now }
    {
        match (self.next, self.count) {
            (LabelField::Character, 0) => Ok(()),
            _ => Err(self.fault()),
        }
    }
}

impl LabelFont {
    // Reads rows into an empty font, up to the first fault.
    fn fill(&mut self, bytes: &[u8]) -> Result<(), Refusal>
        requires { rows_of self.old ≡ [] }
        ensures { Reads start bytes.now (told_with (rows_of self.new) result) }
    {
        let mut reader = Reader::new();
        for byte in bytes {
            if let Some(row) = reader.step(*byte)? {
                // There is room: the reader has no 257th row.
                let _ = self.rows.push(row);
            }
        }
        reader.finish()
    }

    // Reads a label file in the place of the rows so far. A refusal leaves no row.
    pub fn read(&mut self, bytes: &[u8]) -> Result<(), Refusal>
        ensures answer { Reads start bytes.now (told_with (rows_of self.new) result) }
        ensures cleared { is_ok result ≡ false → rows_of self.new ≡ [] }
    {
        *self = LabelFont::new();
        let answer = self.fill(bytes);
        if answer.is_err() {
            *self = LabelFont::new();
        }
        answer
    }
}

// Bytes read as one thing only: the rows of a file or one first fault.
pub fn one_reading()
    ensures { OneReading }
{}
