ghost use Rattle.std.specs.Prelude.{◌≡◌, slice_get, length, drop, take, reverse};
ghost use Rattle.run.specs.Contents.{glyphs_of};

use model::Glyph;
use run::Run;

// Glyphs one behind the other, outward from a position of a run.
pub trait Glyphs {
    ghost use Rattle.std.specs.Prelude.{◌≡◌, List, length, slice_get};
    ghost use Rattle.model.specs.declared.Glyph.{Glyph};

    ghost glyphs: { Self → List Glyph };

    fn len(&self) -> usize
        ensures { result ≡ length (glyphs self.now) };

    fn get(&self, i: usize) -> Option<Glyph>
        ensures { result ≡ slice_get (glyphs self.now) i };
}

// The glyphs of a run from a position on.
#[derive(Clone, Copy)]
pub struct Ahead<'a, 'b> {
    pub run: &'a Run<'b>,
    pub from: usize,
}

impl Glyphs for Ahead<'_, '_> {
    ghost glyphs = { λ ahead. drop ahead.from (glyphs_of ahead.run.now) };

    fn len(&self) -> usize {
        self.run.len().saturating_sub(self.from)
    }

    fn get(&self, i: usize) -> Option<Glyph> {
        let len = self.run.len();
        if self.from < len && i < len - self.from {
            self.run.get(self.from + i)
        } else {
            None
        }
    }
}

// The glyphs before a position, the nearest first.
#[derive(Clone, Copy)]
pub struct Back<'a, 'b> {
    pub run: &'a Run<'b>,
    pub before: usize,
}

impl Glyphs for Back<'_, '_> {
    ghost glyphs = { λ back. reverse (take back.before (glyphs_of back.run.now)) };

    fn len(&self) -> usize {
        self.run.len().min(self.before)
    }

    fn get(&self, i: usize) -> Option<Glyph> {
        let nearest = self.len().checked_sub(1)?;
        self.run.get(nearest.checked_sub(i)?)
    }
}
