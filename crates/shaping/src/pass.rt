ghost use Rattle.std.specs.Prelude.{◌≡◌, ℕ, length, IfOk};
ghost use Rattle.candidates.specs.LookupOf.{lookup_of};
ghost use Rattle.editing.specs.Contents.{glyphs_of, lender_of, room_of};
ghost use Rattle.gsub.specs.Meaning.{gsub_means};
ghost use Rattle.model.specs.declared.Entry.{Entry};
ghost use Rattle.model.specs.Shaping.{Pass, Runs, Sweeps, back_pass};
ghost use Rattle.shaping.specs.Attempts.{Ready, ending_of, inputs_of};
ghost use Rattle.shaping.specs.Work.{Idle, Lent, state_of};

use crate::shape::Inputs;
use crate::stop::Stop;
use crate::work::Work;
use candidates::lookup::Lookup;
use font::source::FontSource;
use model::Entry;

impl<S: FontSource> Inputs<'_, S> {
    // From the first glyph on: after a hit at the match's end, else at the next glyph.
    fn forward(
        &self,
        work: &mut Work<'_, '_>,
        alternate: u16,
        lookup: &Lookup<'_>,
    ) -> Result<(), Stop>
        requires idle { Idle work.old }
        requires named { (n : ℕ) × (lookup_of lookup.now ≡ gsub_means self.now.table.table.now n) }
        ensures pass { (x : Entry) → x.alternate ≡ alternate → lookup_of lookup.now ≡ gsub_means self.now.table.table.now x.lookup → Pass (inputs_of (S.FontSource.means self.now.source.now) self.now.table.table.now self.now.plan.now self.now.limit (room_of work.old.editing)) x 0 (state_of work.old) (ending_of result (state_of work.new)) }
        ensures idle { IfOk result (λ _. Idle work.new) }
        ensures lent { Lent work.new work.old }
    {
        let mut i = 0;
        while i < work.editing.run.len() {
            i = match self.attempt(work, 6, alternate, lookup, i)? {
                Some(end) => end,
                None => i + 1,
            };
        }
        Ok(())
    }

    // From the last glyph to the first.
    fn backward(
        &self,
        work: &mut Work<'_, '_>,
        alternate: u16,
        lookup: &Lookup<'_>,
    ) -> Result<(), Stop>
        requires idle { Idle work.old }
        requires named { (n : ℕ) × (lookup_of lookup.now ≡ gsub_means self.now.table.table.now n) }
        ensures pass { (x : Entry) → x.alternate ≡ alternate → lookup_of lookup.now ≡ gsub_means self.now.table.table.now x.lookup → ending_of result (state_of work.new) ≡ back_pass (inputs_of (S.FontSource.means self.now.source.now) self.now.table.table.now self.now.plan.now self.now.limit (room_of work.old.editing)) x (length (glyphs_of work.old.editing)) (state_of work.old) }
        ensures idle { IfOk result (λ _. Idle work.new) }
        ensures lent { Lent work.new work.old }
    {
        let mut i = work.editing.run.len();
        while i > 0 {
            i -= 1;
            self.attempt(work, 6, alternate, lookup, i)?;
        }
        Ok(())
    }

    // The pass of a plan entry over the run.
    fn sweep(&self, work: &mut Work<'_, '_>, entry: Entry) -> Result<(), Stop>
        requires idle { Idle work.old }
        ensures pass { Sweeps (inputs_of (S.FontSource.means self.now.source.now) self.now.table.table.now self.now.plan.now self.now.limit (room_of work.old.editing)) entry (state_of work.old) (ending_of result (state_of work.new)) }
        ensures idle { IfOk result (λ _. Idle work.new) }
        ensures lent { Lent work.new work.old }
    {
        let lookup = Lookup::of(self.table, entry.lookup);
        if lookup.is_backward() {
            self.backward(work, entry.alternate, &lookup)
        } else {
            self.forward(work, entry.alternate, &lookup)
        }
    }

    // The plan's passes, in order.
    pub(crate) fn passes(&self, work: &mut Work<'_, '_>) -> Result<(), Stop>
        requires idle { Idle work.old }
        ensures runs { Runs (inputs_of (S.FontSource.means self.now.source.now) self.now.table.table.now self.now.plan.now self.now.limit (room_of work.old.editing)) self.now.plan.now (state_of work.old) (ending_of result (state_of work.new)) }
        ensures idle { IfOk result (λ _. Idle work.new) }
        ensures room { room_of work.new.editing ≡ room_of work.old.editing }
        ensures lender { lender_of work.new.editing ≡ lender_of work.old.editing }
        ensures ties { work.new.ties.ghost_name ≡ work.old.ties.ghost_name }
        ensures len { length work.new.ties.now ≡ length work.old.ties.now }
    {
        for entry in self.plan {
            self.sweep(work, *entry)?;
        }
        Ok(())
    }
}
