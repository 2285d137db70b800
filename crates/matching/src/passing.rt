ghost use Rattle.std.specs.Prelude.{◌≡◌, ◌+◌, ◌-◌, ◌^◌, ◌<◌, drop, length, IfSome};
ghost use Rattle.matching.specs.Next.{skips, next_in, SkipsAsLookups};

use crate::glyphs::Glyphs;
use font::glyph_class::GlyphClass;
use font::source::FontSource;
use model::Glyph;

// What a lookup passes over: by its flag, its mark set and what a font says of glyphs.
#[derive(Clone, Copy)]
pub struct Passing<'a, S: FontSource> {
    pub source: &'a S,
    pub flag: u16,
    pub mark_set: u16,
}

// A glyph that is not passed over, and how many before it are.
#[derive(Clone, Copy)]
pub struct Next {
    pub gap: usize,
    pub glyph: Glyph,
}

impl<S: FontSource> Passing<'_, S> {
    // Whether the lookup passes over a glyph.
    pub fn over(&self, glyph: u16) -> bool
        ensures { result ≡ skips (S.FontSource.means self.now.source.now) self.now.flag self.now.mark_set glyph }
    {
        match self.source.class(glyph) {
            Some(GlyphClass::Base) => self.flag & 0x0002 != 0,
            Some(GlyphClass::Ligature) => self.flag & 0x0004 != 0,
            Some(GlyphClass::Mark) => self.over_mark(glyph),
            Some(GlyphClass::Component) | None => false,
        }
    }

    // Whether it passes over a mark: over all, over those outside its mark set, or over those of another mark class.
    fn over_mark(&self, glyph: u16) -> bool
        ensures { (S.FontSource.means self.now.source.now).class glyph ≡ 3 → result ≡ skips (S.FontSource.means self.now.source.now) self.now.flag self.now.mark_set glyph }
    {
        if self.flag & 0x0008 != 0 {
            return true;
        }
        if self.flag & 0x0010 != 0 {
            return !self.source.in_mark_set(self.mark_set, glyph);
        }
        let class = self.flag / 256;
        class != 0 && self.source.mark_class(glyph) != class
    }

    // The next glyph from an index on that the lookup does not pass over.
    pub fn next<G: Glyphs>(&self, glyphs: &G, from: usize) -> Option<Next>
        ensures inside { IfSome result (λ next. from + next.gap < length (G.Glyphs.glyphs glyphs.now)) }
        ensures near { IfSome result (λ next. from + next.gap < 2 ^ 64 - 1) }
        ensures next { result ≡ next_in (skips (S.FontSource.means self.now.source.now) self.now.flag self.now.mark_set) (drop from (G.Glyphs.glyphs glyphs.now)) }
    {
        for i in from..glyphs.len() {
            let glyph = glyphs.get(i)?;
            if !self.over(glyph.glyph) {
                return Some(Next {
                    gap: i - from,
                    glyph,
                });
            }
        }
        None
    }
}

// What is passed over depends on a lookup's flag and mark set alone.
pub fn skips_as_lookups()
    ensures { SkipsAsLookups }
{}
