ghost use Rattle.std.specs.Prelude.{◌≡◌};
ghost use Rattle.font.specs.StandIn.{pairs_of, stand_in_font};

use crate::glyph_class::GlyphClass;
use crate::pairs::PairTable;
use crate::source::{FontSource, MeasuredSource};

// A source with characters that stand in for those that it lacks. It holds any source, another layer too.
#[derive(Drop)]
pub struct StandIn<S: FontSource> {
    pub below: S,
    pub table: PairTable,
}

impl<S: FontSource> FontSource for StandIn<S> {
    ghost means = { λ layer. stand_in_font (S.FontSource.means layer.below) (pairs_of layer.table) };

    fn glyph(&self, character: u32) -> u16 {
        let own = self.below.glyph(character);
        if own != 0 {
            return own;
        }
        let first = self
            .table
            .pairs()
            .iter()
            .find(|pair| pair.character == character);
        first.map_or(0, |pair| self.below.glyph(pair.stand_in))
    }

    fn class(&self, glyph: u16) -> Option<GlyphClass> {
        self.below.class(glyph)
    }

    fn mark_class(&self, glyph: u16) -> u16 {
        self.below.mark_class(glyph)
    }

    fn in_mark_set(&self, set: u16, glyph: u16) -> bool {
        self.below.in_mark_set(set, glyph)
    }
}

impl<S: MeasuredSource> MeasuredSource for StandIn<S> {
    ghost advances = { λ layer. S.MeasuredSource.advances layer.below };

    fn advance(&self, glyph: u16) -> u16 {
        self.below.advance(glyph)
    }
}
