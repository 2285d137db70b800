// The candidate of a lookup that matches at a position of a run.
ghost use Rattle.std.specs.Prelude.{◌≡◌, ◌≤◌, ◌<◌, suc, cond, length, drop, take, reverse, IfNone, IfSome, None};
ghost use Rattle.std.proofs.Math.Option.{none};
ghost use Rattle.run.specs.Contents.{glyphs_of};
ghost use Rattle.model.specs.Lookups.{choose, passes_over};
ghost use Rattle.matching.specs.Next.{skips};
ghost use Rattle.matching.specs.Seek.{Outward, glyph_at};
ghost use Rattle.candidates.specs.Actions.{MetLeft, found_at};
ghost use Rattle.candidates.specs.Chosen.{chosen};
ghost use Rattle.candidates.specs.LookupOf.{lookup_of};

use crate::found::Found;
use crate::lookup::Lookup;
use font::source::FontSource;
use matching::passing::Passing;
use run::Run;

// The glyph at a position.
fn glyph_at(run: &Run<'_>, p: usize) -> Option<u16>
    ensures some { IfSome result (λ glyph. (glyph ≡ (glyph_at (glyphs_of run.now) p).glyph) × (p < length (glyphs_of run.now))) }
    ensures none { IfNone result (length (glyphs_of run.now) ≤ p) }
{
    let glyph = run.get(p)?;
    Some(glyph.glyph)
}

impl<'a> Lookup<'a> {
    // The first candidate that matches, subtable by subtable and rule by rule.
    fn first_match<S: FontSource>(
        &self,
        passing: &Passing<'_, S>,
        alternate: u16,
        glyph: u16,
        run: &Run<'_>,
        p: usize,
        met: &mut [usize; 63],
    ) -> Option<Found<'a>>
        requires { p < length (glyphs_of run.now) }
        ensures found { found_at (glyphs_of run.now) p met.new result ≡ chosen (skips (S.FontSource.means passing.now.source.now) passing.now.flag passing.now.mark_set) ((lookup_of self.now).candidates alternate glyph) (glyphs_of run.now) p }
        ensures outward { IfSome result (λ found. (found.inputs ≤ 63) × Outward 0 (length (drop (suc p) (glyphs_of run.now))) (take found.inputs met.new)) }
        ensures left { MetLeft result met.old met.new }
    {
        'search: {
            for j in 0..self.subtables {
                let Some(list) = self.listed(j, alternate, glyph) else {
                    continue;
                };
                for k in 0..list.len() {
                    let candidate = list.get(k);
                    if let Some(found) = candidate.attempt(passing, run, p, met) {
                        break 'search Some(found);
                    }
                }
            }
            None
        }
    }

    // Whether it passes over a glyph. One without a flag passes over nothing.
    fn passes_over<S: FontSource>(&self, passing: &Passing<'_, S>, glyph: u16) -> bool
        requires flag { passing.now.flag ≡ self.now.flag }
        requires mark_set { passing.now.mark_set ≡ self.now.mark_set }
        ensures { result ≡ passes_over (S.FontSource.means passing.now.source.now) (lookup_of self.now) glyph }
    {
        self.flag != 0 && passing.over(glyph)
    }

    // The same where the lookup does not pass over the glyph itself. `met` gets the indices of the
    // further input glyphs, counted from the glyph behind the position, and keeps what stands behind
    // them; where nothing matches it keeps all.
    pub fn choose<S: FontSource>(
        &self,
        source: &S,
        alternate: u16,
        run: &Run<'_>,
        p: usize,
        met: &mut [usize; 63],
    ) -> Option<Found<'a>>
        ensures chosen { p < length (glyphs_of run.now) → found_at (glyphs_of run.now) p met.new result ≡ cond (passes_over (S.FontSource.means source.now) (lookup_of self.now) (glyph_at (glyphs_of run.now) p).glyph) none (choose (passes_over (S.FontSource.means source.now) (lookup_of self.now)) ((lookup_of self.now).candidates alternate (glyph_at (glyphs_of run.now) p).glyph) (reverse (take p (glyphs_of run.now))) (glyph_at (glyphs_of run.now) p).cluster (drop (suc p) (glyphs_of run.now))) }
        ensures past { length (glyphs_of run.now) ≤ p → result ≡ None }
        ensures outward { IfSome result (λ found. (found.inputs ≤ 63) × Outward 0 (length (drop (suc p) (glyphs_of run.now))) (take found.inputs met.new)) }
        ensures left { MetLeft result met.old met.new }
    {
        let glyph = glyph_at(run, p)?;
        let passing = Passing {
            source,
            flag: self.flag,
            mark_set: self.mark_set,
        };
        if self.passes_over(&passing, glyph) {
            return None;
        }
        self.first_match(&passing, alternate, glyph, run, p, met)
    }
}
