// A candidate, tried at a position of a run.
ghost use Rattle.std.specs.Prelude.{◌≡◌, ◌≤◌, ◌<◌, suc, length, take, drop, IfSome};
ghost use Rattle.run.specs.Contents.{glyphs_of};
ghost use Rattle.matching.specs.Match.{matched_at};
ghost use Rattle.matching.specs.Next.{skips};
ghost use Rattle.matching.specs.Seek.{Outward};
ghost use Rattle.candidates.specs.Actions.{MetLeft, found_at};
ghost use Rattle.candidates.specs.Views.{candidate_of};

use crate::candidate::Candidate;
use crate::found::Found;
use font::source::FontSource;
use matching::passing::Passing;
use matching::pattern::Around;
use run::Run;

impl<'a> Candidate<'a> {
    pub(crate) fn attempt<S: FontSource>(
        &self,
        passing: &Passing<'_, S>,
        run: &Run<'_>,
        p: usize,
        met: &mut [usize; 63],
    ) -> Option<Found<'a>>
        ensures found { p < length (glyphs_of run.now) → found_at (glyphs_of run.now) p met.new result ≡ matched_at (skips (S.FontSource.means passing.now.source.now) passing.now.flag passing.now.mark_set) (candidate_of self.now).pattern (candidate_of self.now).action (glyphs_of run.now) p }
        ensures outward { IfSome result (λ found. (found.inputs ≤ 63) × Outward 0 (length (drop (suc p) (glyphs_of run.now))) (take found.inputs met.new)) }
        ensures left { MetLeft result met.old met.new }
    {
        let around = Around {
            backtrack: self.backtrack,
            input: self.input,
            lookahead: self.lookahead,
        };
        let span = passing.matches(run, p, &around, &mut met[..])?;
        Some(Found {
            action: self.action,
            span,
            inputs: self.input.array.count,
        })
    }
}
