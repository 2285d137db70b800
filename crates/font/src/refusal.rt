ghost use Rattle.std.specs.Prelude.{◌≡◌, Err, Some};
ghost use Rattle.font.specs.Told.{told, number_of, field_number, refusal_text};

use std::fmt;

// A field of a label file's row, numbered from left to right.
#[derive(Clone, Copy, Debug, PartialEq)]
pub enum LabelField {
    Character = 1,
    Glyph = 2,
    Class = 3,
    MarkClass = 4,
    Advance = 5,
}

impl LabelField {
    pub fn number(self) -> u8
        ensures { result ≡ field_number self }
    {
        self as u8
    }
}

// Why a call of this crate was refused.
#[derive(Clone, Copy, Debug, PartialEq)]
pub enum Refusal {
    // A run of more than 65,535 glyphs.
    RunTooLong,
    // A label file that breaks a rule, told by the line, from 1, and the field of its first fault.
    Label { line: u32, field: LabelField },
    // A 33rd stand-in pair.
    TooManyPairs,
}

impl Refusal {
    // The number that docs/REFUSALS.md lists it under.
    pub fn number(&self) -> u8
        ensures { result ≡ number_of (told {X = Unit} (Err self.now)) }
    {
        match self {
            Refusal::RunTooLong => 6,
            Refusal::Label { line: _, field: _ } => 12,
            Refusal::TooManyPairs => 13,
        }
    }
}

impl fmt::Display for Refusal {
    ghost output = { λ refusal. Some (refusal_text refusal) };

    fn fmt<W: fmt::Write>(&self, f: &mut fmt::Formatter<W>) -> fmt::Result {
        match self {
            Refusal::RunTooLong => f.write_str("refused 6"),
            Refusal::Label { line, field } => {
                let field = field.number();
                write!(f, "refused 12 line {line} field {field}")
            }
            Refusal::TooManyPairs => f.write_str("refused 13"),
        }
    }
}
