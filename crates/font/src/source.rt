ghost use Rattle.std.specs.Prelude.{◌≡◌, ℕ, List, [], map, length, if◌then◌else◌, nat_lt};
ghost use Rattle.font.specs.Font.{Font, class_number, width};
ghost use Rattle.font.specs.Told.{Told, gave, refused, told};

use crate::glyph_class::GlyphClass;
use crate::refusal::Refusal;

// What shaping asks of a font. Every question takes any number, is never refused and changes nothing.
pub trait FontSource {
    ghost means: { Self → Font };

    // The glyph of a character; 0 where the font has none.
    fn glyph(&self, character: u32) -> u16
        ensures { result ≡ (means self.now).glyph character };

    // The class of a glyph, if it has one.
    fn class(&self, glyph: u16) -> Option<GlyphClass>
        ensures { class_number result ≡ (means self.now).class glyph };

    // The mark attachment class of a glyph.
    fn mark_class(&self, glyph: u16) -> u16
        ensures { result ≡ (means self.now).mark_class glyph };

    // Whether a mark set holds a glyph.
    fn in_mark_set(&self, set: u16, glyph: u16) -> bool
        ensures { result ≡ (means self.now).in_mark_set set glyph };
}

// A font source that also has an advance for each glyph.
pub trait MeasuredSource: FontSource {
    ghost advances: { Self → ℕ → ℕ };

    fn advance(&self, glyph: u16) -> u16
        ensures { result ≡ advances self.now glyph };
}

// A record that tells its glyph.
pub trait HasGlyph {
    ghost shows: { Self → ℕ };

    fn glyph(&self) -> u16
        ensures { result ≡ shows self.now };
}

// A glyph tells itself.
impl HasGlyph for u16 {
    ghost shows = { λ g. g };

    fn glyph(&self) -> u16 {
        *self
    }
}

// The width of a run: the sum of its glyphs' advances.
pub fn run_width<S: MeasuredSource, G: HasGlyph>(source: &S, run: &[G]) -> Result<u32, Refusal>
    ensures { told result ≡ (if nat_lt 65535 (length run.now) then refused 6 [] else gave (width (S.MeasuredSource.advances source.now) (map G.HasGlyph.shows run.now))) }
{
    if run.len() > 65_535 {
        return Err(Refusal::RunTooLong);
    }
    Ok(
        run.iter()
            .map(|record| u32::from(source.advance(record.glyph())))
            .sum(),
    )
}
