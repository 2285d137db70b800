ghost use Rattle.std.specs.Prelude.{◌≡◌, ℕ, Bool, List, length, drop};
ghost use Rattle.std.proofs.Math.Option.{some};
ghost use Rattle.model.specs.Lookups.{Met, seek};
ghost use Rattle.matching.specs.Next.{skips};
ghost use Rattle.matching.specs.Seek.{Outward, mets_at, reached_by};

use crate::glyphs::Glyphs;
use crate::passing::Passing;
use font::source::FontSource;

// The entries of a pattern, the nearest first: what each asks of a glyph.
pub trait Entries {
    ghost use Rattle.std.specs.Prelude.{◌≡◌, ℕ, Bool, List, length};
    ghost use Rattle.matching.specs.Seek.{meets};

    ghost tests: { Self → List (ℕ → Bool) };

    fn len(&self) -> usize
        ensures { result ≡ length (tests self.now) };

    // Whether a glyph meets entry k.
    fn meets(&self, k: usize, glyph: u16) -> bool
        ensures { result ≡ meets (tests self.now) k glyph };
}

// How far a search got: the index behind the last glyph met, and that glyph's cluster.
#[derive(Clone, Copy)]
pub struct Reached {
    pub at: usize,
    pub far: u32,
}

impl<S: FontSource> Passing<'_, S> {
    // Whether all entries are met, each by the next glyph that is not passed over, from where another search ended. Answers where this one ended.
    pub fn seek<G: Glyphs, E: Entries>(
        &self,
        glyphs: &G,
        from: Reached,
        entries: &E,
    ) -> Option<Reached>
        ensures { result ≡ reached_by from (seek
            (skips (S.FontSource.means self.now.source.now) self.now.flag self.now.mark_set)
            (E.Entries.tests entries.now) (drop from.at (G.Glyphs.glyphs glyphs.now))) }
    {
        let mut so_far = from;
        for k in 0..entries.len() {
            let next = self.next(glyphs, so_far.at)?;
            if !entries.meets(k, next.glyph.glyph) {
                return None;
            }
            so_far = Reached {
                at: so_far.at + next.gap + 1,
                far: next.glyph.cluster,
            };
        }
        Some(so_far)
    }

    // Notes the indices of the next glyphs that are not passed over, as many as there are places: where as many entries were met, by these glyphs.
    pub(crate) fn note<G: Glyphs>(&self, glyphs: &G, met: &mut [usize])
        ensures { (tests : List (ℕ → Bool)) (ms : List Met) → length tests ≡ length met.old
            → seek (skips (S.FontSource.means self.now.source.now) self.now.flag self.now.mark_set)
            tests (G.Glyphs.glyphs glyphs.now) ≡ some ms
            → (ms ≡ mets_at (G.Glyphs.glyphs glyphs.now) 0 met.new)
            × Outward 0 (length (G.Glyphs.glyphs glyphs.now)) met.new }
    {
        let mut at = 0;
        for place in met.iter_mut() {
            let Some(next) = self.next(glyphs, at) else {
                return;
            };
            *place = at + next.gap;
            at = *place + 1;
        }
    }
}
