ghost use Rattle.std.specs.Prelude.{◌≡◌, ◌≤◌, ◌<◌, ◌+◌, ◌∷◌, ℕ, List, length, slice_get, Some, None};
ghost use Rattle.model.specs.Lookups.{LookupRecord};
ghost use Rattle.model.specs.Shaping.{attempt};
ghost use Rattle.model.specs.Edits.{Frame};
ghost use Rattle.editing.specs.Contents.{open_of, room_of};
ghost use Rattle.gsub.specs.Meaning.{gsub_means};
ghost use Rattle.shaping.specs.Attempts.{Comes, Inwards, Ready, inputs_of};
ghost use Rattle.candidates.specs.Actions.{records_of};
ghost use Rattle.candidates.specs.LookupOf.{lookup_of};
ghost use Rattle.shaping.specs.Work.{Lent, state_of};

use crate::shape::Inputs;
use crate::stop::Stop;
use crate::work::Work;
use candidates::found::{Action, Records};
use candidates::lookup::Lookup;
use font::source::FontSource;

// What a record runs: a lookup, at a position.
#[derive(Clone, Copy)]
pub(crate) struct Inner<'a> {
    pub(crate) lookup: Lookup<'a>,
    pub(crate) at: usize,
}

impl<'a, S: FontSource> Inputs<'a, S> {
    // What record i of the innermost open match runs. Nothing where its index is past the list of positions, or where it names a lookup that goes backward.
    fn inner(&self, work: &Work<'_, '_>, records: &Records<'_>, i: usize) -> Option<Inner<'a>>
        ensures { (f : Frame) (fs : List Frame) (r : LookupRecord) (room : ℕ) → open_of work.now.editing ≡ f ∷ fs → slice_get (records_of records.now) i ≡ Some r → Inwards (inputs_of (S.FontSource.means self.now.source.now) self.now.table.table.now self.now.plan.now self.now.limit room) r f result }
    {
        let record = records.get(i)?;
        let at = work.editing.position(usize::from(record.index))?;
        let lookup = Lookup::of(self.table, record.lookup);
        if lookup.is_backward() {
            return None;
        }
        Some(Inner { lookup, at })
    }

    // An attempt of a lookup at a position, with so many levels left. Answers the match's end, if there is a match.
    pub(crate) fn attempt(
        &self,
        work: &mut Work<'_, '_>,
        depth: usize,
        alternate: u16,
        lookup: &Lookup<'_>,
        p: usize,
    ) -> Result<Option<usize>, Stop>
        requires ready { Ready (length work.old.ties.now) (state_of work.old) }
        requires open { length (open_of work.old.editing) + depth ≤ 6 }
        ensures answer { (l : ℕ) → lookup_of lookup.now ≡ gsub_means self.now.table.table.now l → Comes (attempt (inputs_of (S.FontSource.means self.now.source.now) self.now.table.table.now self.now.plan.now self.now.limit (room_of work.old.editing)) depth alternate l p (state_of work.old)) (state_of work.old) (open_of work.old.editing) result (state_of work.new) (open_of work.new.editing) }
        ensures lent { Lent work.new work.old }
    {
        if depth == 0 {
            return Ok(None);
        }
        let mut met = [0; 63];
        let Some(found) = lookup.choose(self.source, alternate, &work.editing.run, p, &mut met)
        else {
            return Ok(None);
        };
        self.strike(work, p, &found, &met[..found.inputs])?;
        if let Action::Nest(records) = found.action {
            for i in 0..records.len() {
                if let Some(inner) = self.inner(work, &records, i) {
                    self.attempt(work, depth - 1, alternate, &inner.lookup, inner.at)?;
                }
            }
        }
        Ok(Some(work.editing.close_match()))
    }
}
