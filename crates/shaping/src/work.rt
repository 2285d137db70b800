ghost use Rattle.std.specs.Prelude.{◌≡◌, ◌<◌, ◌≤◌, ◌+◌, suc, true, length, drop, map, nat_le};
ghost use Rattle.model.specs.Edits.{changed, edits, told};
ghost use Rattle.model.specs.Laws.{Rising};
ghost use Rattle.editing.specs.Contents.{glyphs_of, lender_of, open_of, room_of};
ghost use Rattle.matching.specs.Seek.{Outward, glyph_at, mets_at};
ghost use Rattle.candidates.specs.Actions.{action_of};
ghost use Rattle.shaping.specs.Attempts.{Ready, Took, inputs_of, match_at};
ghost use Rattle.shaping.specs.Work.{Lent, state_of};

use crate::shape::Inputs;
use crate::stop::Stop;
use candidates::found::{Action, Found};
use editing::editing::Editing;
use font::source::FontSource;
use ties::tie;

// What shaping changes: the run with its open matches, which characters are tied, and the hits.
#[derive(Drop)]
pub(crate) struct Work<'a, 'b> {
    pub(crate) editing: Editing<'a>,
    pub(crate) ties: &'b mut [u8],
    pub(crate) hits: u32,
}

// A match's own change at position `p`, whose further input has these indices. False where there is no room for it.
fn change(editing: &mut Editing<'_>, p: usize, action: &Action<'_>, met: &[usize]) -> bool
    requires rising { Rising (glyphs_of editing.old) }
    requires inside { p < length (glyphs_of editing.old) }
    requires met { Outward 0 (length (drop (suc p) (glyphs_of editing.old))) met.now }
    requires fits { length (glyphs_of editing.old) ≤ room_of editing.old }
    ensures answer { result ≡ nat_le (length (changed (action_of action.now) (glyph_at (glyphs_of editing.old) p).cluster (mets_at (drop (suc p) (glyphs_of editing.old)) 0 met.now) p (glyphs_of editing.old))) (room_of editing.old) }
    ensures glyphs { result ≡ true → glyphs_of editing.new ≡ changed (action_of action.now) (glyph_at (glyphs_of editing.old) p).cluster (mets_at (drop (suc p) (glyphs_of editing.old)) 0 met.now) p (glyphs_of editing.old) }
    ensures open { result ≡ true → open_of editing.new ≡ map (told (edits (action_of action.now) (mets_at (drop (suc p) (glyphs_of editing.old)) 0 met.now) p)) (open_of editing.old) }
    ensures room { room_of editing.new ≡ room_of editing.old }
    ensures lender { lender_of editing.new ≡ lender_of editing.old }
{
    match action {
        Action::Put(glyphs) => editing.put(p, glyphs.as_slice()),
        Action::Join(ligature) => editing.join(p, *ligature, met),
        Action::Nest(_) => true,
    }
}

impl<S: FontSource> Inputs<'_, S> {
    // A match takes effect: a hit, its ties and its own change. It is open then, and closed by the caller.
    pub(crate) fn strike(
        &self,
        work: &mut Work<'_, '_>,
        p: usize,
        found: &Found<'_>,
        met: &[usize],
    ) -> Result<(), Stop>
        requires ready { Ready (length work.old.ties.now) (state_of work.old) }
        requires inside { p < length (glyphs_of work.old.editing) }
        requires open { length (open_of work.old.editing) < 6 }
        requires met { (length met.now ≤ 63) × Outward 0 (length (drop (suc p) (glyphs_of work.old.editing))) met.now }
        requires far { found.now.span.hi < length work.old.ties.now }
        ensures took { Took (inputs_of (S.FontSource.means self.now.source.now) self.now.table.table.now self.now.plan.now self.now.limit (room_of work.old.editing)) (match_at (glyphs_of work.old.editing) p met.now found.now) p (state_of work.old) (open_of work.old.editing) result (state_of work.new) (open_of work.new.editing) }
        ensures lent { Lent work.new work.old }
    {
        if work.hits >= self.limit {
            return Err(Stop::HitLimit);
        }
        work.editing.open_match(p, met);
        if !change(&mut work.editing, p, &found.action, met) {
            return Err(Stop::Room);
        }
        work.hits += 1;
        tie(work.ties, found.span.lo, found.span.hi);
        Ok(())
    }
}
