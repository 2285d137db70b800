ghost use Rattle.std.specs.Prelude.{◌≡◌, if◌then◌else◌, Some, nat_le};
ghost use Rattle.font.specs.Font.{class_number, class_of};

// What GDEF says a glyph is.
#[derive(Clone, Copy, Debug, PartialEq)]
pub enum GlyphClass {
    Base = 1,
    Ligature = 2,
    Mark = 3,
    Component = 4,
}

impl GlyphClass {
    // The class that a number stands for; 0 and what is above 4 stand for none, which is no error, so that this is no `TryFrom`.
    pub fn of(number: u16) -> Option<GlyphClass>
        ensures class { result ≡ class_of number }
        ensures number { class_number result ≡ (if nat_le number 4 then number else 0) }
    {
        match number {
            1 => Some(GlyphClass::Base),
            2 => Some(GlyphClass::Ligature),
            3 => Some(GlyphClass::Mark),
            4 => Some(GlyphClass::Component),
            _ => None,
        }
    }

    pub fn number(self) -> u8
        ensures { result ≡ class_number (Some self) }
    {
        self as u8
    }
}
