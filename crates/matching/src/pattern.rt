ghost use Rattle.std.specs.Prelude.{◌≡◌, ◌≤◌, ◌<◌, ◌-◌, ◌^◌, suc, length, take, drop, None, IfNone, IfSome};
ghost use Rattle.std.proofs.Math.Option.{some};
ghost use Rattle.run.specs.Contents.{glyphs_of};
ghost use Rattle.model.specs.Lookups.{Action};
ghost use Rattle.matching.specs.Next.{skips};
ghost use Rattle.matching.specs.Seek.{Outward, glyph_at, mets_at};
ghost use Rattle.matching.specs.Match.{matched_at, spanned};

use crate::glyphs::{Ahead, Back};
use crate::passing::Passing;
use crate::seek::{Entries, Reached};
use font::source::FontSource;
use run::Run;

// What must stand around a glyph.
#[derive(Clone, Copy)]
pub struct Around<B: Entries, I: Entries, L: Entries> {
    pub backtrack: B,
    pub input: I,
    pub lookahead: L,
}

// The clusters of the leftmost and the rightmost glyph of a match.
#[derive(Clone, Copy)]
pub struct Span {
    pub lo: u32,
    pub hi: u32,
}

impl<S: FontSource> Passing<'_, S> {
    // What a pattern spans that matches around position `p` of a run; nothing where it does not, or where there is no such glyph.
    fn span<B: Entries, I: Entries, L: Entries>(
        &self,
        run: &Run<'_>,
        p: usize,
        around: &Around<B, I, L>,
    ) -> Option<Span>
        ensures span { (action : Action) → p < length (glyphs_of run.now) → result ≡ spanned (matched_at (skips (S.FontSource.means self.now.source.now) self.now.flag self.now.mark_set) (record { backtrack = B.Entries.tests around.now.backtrack; input = I.Entries.tests around.now.input; lookahead = L.Entries.tests around.now.lookahead }) action (glyphs_of run.now) p) }
        ensures inside { IfSome result (λ _. p < length (glyphs_of run.now)) }
        ensures near { IfSome result (λ _. p < 2 ^ 64 - 1) }
    {
        if p >= run.len() {
            return None;
        }
        let start = Reached {
            at: 0,
            far: run.get(p)?.cluster,
        };
        let ahead = Ahead { run, from: p + 1 };
        let input = self.seek(&ahead, start, &around.input)?;
        let lookahead = self.seek(&ahead, input, &around.lookahead)?;
        let back = self.seek(&Back { run, before: p }, start, &around.backtrack)?;
        Some(Span {
            lo: back.far,
            hi: lookahead.far,
        })
    }

    // Whether a pattern matches around position `p` of a run; where there is no such glyph, it does not. `met` gets the indices of the further input, counted from the glyph behind that position; no place behind those changes. None changes at all where the pattern does not match, or where the places are too few.
    pub fn matches<B: Entries, I: Entries, L: Entries>(
        &self,
        run: &Run<'_>,
        p: usize,
        around: &Around<B, I, L>,
        met: &mut [usize],
    ) -> Option<Span>
        ensures span { (action : Action) → p < length (glyphs_of run.now) → result ≡ spanned (matched_at (skips (S.FontSource.means self.now.source.now) self.now.flag self.now.mark_set) (record { backtrack = B.Entries.tests around.now.backtrack; input = I.Entries.tests around.now.input; lookahead = L.Entries.tests around.now.lookahead }) action (glyphs_of run.now) p) }
        ensures input { (action : Action) → length (I.Entries.tests around.now.input) ≤ length met.old → IfSome result (λ span. matched_at (skips (S.FontSource.means self.now.source.now) self.now.flag self.now.mark_set) (record { backtrack = B.Entries.tests around.now.backtrack; input = I.Entries.tests around.now.input; lookahead = L.Entries.tests around.now.lookahead }) action (glyphs_of run.now) p ≡ some (record { action = action; others = mets_at (drop (suc p) (glyphs_of run.now)) 0 (take (length (I.Entries.tests around.now.input)) met.new); own = (glyph_at (glyphs_of run.now) p).cluster; lo = span.lo; hi = span.hi })) }
        ensures outward { length (I.Entries.tests around.now.input) ≤ length met.old → IfSome result (λ _. Outward 0 (length (drop (suc p) (glyphs_of run.now))) (take (length (I.Entries.tests around.now.input)) met.new)) }
        ensures past { length (glyphs_of run.now) ≤ p → result ≡ None }
        ensures miss { IfNone result (met.new ≡ met.old) }
        ensures short { length met.old < length (I.Entries.tests around.now.input) → met.new ≡ met.old }
        ensures rest { drop (length (I.Entries.tests around.now.input)) met.new ≡ drop (length (I.Entries.tests around.now.input)) met.old }
        ensures len { length met.new ≡ length met.old }
    {
        let span = self.span(run, p, around)?;
        let inputs = around.input.len();
        if inputs <= met.len() {
            self.note(&Ahead { run, from: p + 1 }, &mut met[..inputs]);
        }
        Some(span)
    }
}
