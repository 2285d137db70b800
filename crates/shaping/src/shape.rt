ghost use Rattle.std.specs.Prelude.{◌≡◌, ℕ, ◌≤◌, [], length, Some, None, IfOk, IfErr};
ghost use Rattle.gsub.specs.Tables.{lookup_count};
ghost use Rattle.model.specs.Limits.{refused_first};
ghost use Rattle.model.specs.Shaping.{Outcome, Runs, Shaped, Shapes, laid, shaped};
ghost use Rattle.model.specs.Shaping.{refused as outcome_refused};
ghost use Rattle.run.specs.Contents.{glyphs_of, room_of, lender_of};
ghost use Rattle.shaping.specs.Attempts.{Ready, inputs_of, stop_number};
ghost use Rattle.shaping.specs.First.{Filled, Marked, ended, first_state};
ghost use Rattle.shaping.specs.Shape.{answer_of, first_number, marks_left, refused, run_left, told};

use crate::plan::plan_fits;
use crate::refusal::Refusal;
use crate::stop::Stop;
use crate::work::Work;
use editing::editing::Editing;
use font::source::FontSource;
use gsub::table::Gsub;
use model::{Entry, Glyph};
use run::Run;
use std::mem;
use ties::{clear_ties, settle};

// All that shaping reads but the text: a checked table, a source, a plan and a hit limit.
#[derive(Clone, Copy)]
pub struct Inputs<'a, S: FontSource> {
    pub source: &'a S,
    pub table: Gsub<'a>,
    pub plan: &'a [Entry],
    pub limit: u32,
}

// How many glyphs a shaped text has, and how many hits it took.
#[derive(Clone, Copy)]
pub struct Laid {
    pub glyphs: usize,
    pub hits: u32,
}

// Which characters are tied, in the memory of their marks.
#[derive(Drop)]
struct Flags<'a> {
    ties: &'a mut [u8],
}

impl<S: FontSource> Inputs<'_, S> {
    // What is refused before anything is shaped: sizes first, then the plan.
    fn check(&self, text: &[u32], run: usize, marks: usize) -> Result<(), Refusal>
        ensures { first_number result ≡ refused_first (length text.now) run marks self.now.limit (lookup_count self.now.table.table.now) self.now.plan.now }
    {
        if text.len() > 65_535 || run > 65_535 || self.limit > 1_000_000 || text.len() > marks {
            return Err(Refusal::Size);
        }
        if !plan_fits(self.plan, self.table.lookup_count()) {
            return Err(Refusal::Plan);
        }
        Ok(())
    }

    // The first run: each character's glyph, with the character's number as its cluster.
    fn lay(&self, text: &[u32], run: &mut Run<'_>)
        requires empty { glyphs_of run.old ≡ [] }
        requires fits { length text.now ≤ room_of run.old }
        requires few { length text.now ≤ 65535 }
        ensures laid { glyphs_of run.new ≡ laid (S.FontSource.means self.now.source.now) 0 text.now }
        ensures room { room_of run.new ≡ room_of run.old }
        ensures lender { lender_of run.new ≡ lender_of run.old }
    {
        let mut cluster = 0;
        for &character in text {
            let glyph = self.source.glyph(character);
            let Ok(()) = run.push(Glyph { glyph, cluster }) else {
                return;
            };
            cluster += 1;
        }
    }

    // The plan's passes over a first run. Run and flags are taken out of their places and put back, so that who lent them keeps sight of them.
    fn run_plan(&self, run: &mut Run<'_>, flags: &mut Flags<'_>) -> Result<u32, Stop>
        requires ready { Ready (length flags.old.ties.now) (first_state (glyphs_of run.old) flags.old.ties.now) }
        ensures runs { Runs (inputs_of (S.FontSource.means self.now.source.now) self.now.table.table.now self.now.plan.now self.now.limit (room_of run.old)) self.now.plan.now (first_state (glyphs_of run.old) flags.old.ties.now) (ended result (glyphs_of run.new) flags.new.ties.now) }
        ensures room { room_of run.new ≡ room_of run.old }
        ensures lender { lender_of run.new ≡ lender_of run.old }
        ensures ties { flags.new.ties.ghost_name ≡ flags.old.ties.ghost_name }
        ensures len { length flags.new.ties.now ≡ length flags.old.ties.now }
    {
        let mut work = Work {
            editing: Editing::new(mem::replace(run, Run::new(&mut []))),
            ties: mem::replace(&mut flags.ties, &mut []),
            hits: 0,
        };
        let ended = self.passes(&mut work);
        let Work {
            editing,
            ties,
            hits,
        } = work;
        *run = editing.into_run();
        flags.ties = ties;
        ended?;
        Ok(hits)
    }

    // The same with the flags in memory of which no character is tied yet; they become break marks. Answers the hits.
    fn run_marked(&self, run: &mut Run<'_>, marks: &mut [u8]) -> Result<u32, Stop>
        requires ready { Ready (length marks.old) (first_state (glyphs_of run.old) marks.old) }
        ensures runs { Marked (inputs_of (S.FontSource.means self.now.source.now) self.now.table.table.now self.now.plan.now self.now.limit (room_of run.old)) (first_state (glyphs_of run.old) marks.old) (length marks.old) result (glyphs_of run.new) marks.new }
        ensures room { room_of run.new ≡ room_of run.old }
        ensures lender { lender_of run.new ≡ lender_of run.old }
        ensures len { length marks.new ≡ length marks.old }
    {
        let mut flags = Flags { ties: marks };
        let hits = self.run_plan(run, &mut flags)?;
        settle(flags.ties, run);
        Ok(hits)
    }

    // Shapes a text into a run of no glyphs and its marks. A refusal says nothing of what they hold.
    fn fill(&self, text: &[u32], run: &mut Run<'_>, marks: &mut [u8]) -> Result<u32, Stop>
        requires empty { glyphs_of run.old ≡ [] }
        requires few { length text.now ≤ 65535 }
        requires marked { length marks.old ≡ length text.now }
        ensures outcome { Filled (inputs_of (S.FontSource.means self.now.source.now) self.now.table.table.now self.now.plan.now self.now.limit (room_of run.old)) text.now result (glyphs_of run.new) marks.new }
        ensures room { room_of run.new ≡ room_of run.old }
        ensures lender { lender_of run.new ≡ lender_of run.old }
        ensures len { length marks.new ≡ length marks.old }
    {
        if text.len() > run.room() {
            return Err(Stop::Room);
        }
        self.lay(text, run);
        clear_ties(marks);
        self.run_marked(run, marks)
    }

    // The same in plain memory, with zeros past what there is.
    fn lay_out(&self, text: &[u32], run: &mut [Glyph], marks: &mut [u8]) -> Result<Laid, Stop>
        requires few { length text.now ≤ 65535 }
        requires marked { length text.now ≤ length marks.old }
        ensures refused { IfErr result (λ stop. Shapes (inputs_of (S.FontSource.means self.now.source.now) self.now.table.table.now self.now.plan.now self.now.limit (length run.old)) text.now (outcome_refused (stop_number stop))) }
        ensures shaped { IfOk result (λ laid. (r : Shaped) × Shapes (inputs_of (S.FontSource.means self.now.source.now) self.now.table.table.now self.now.plan.now self.now.limit (length run.old)) text.now (shaped r) × (laid.glyphs ≡ length r.run) × (laid.hits ≡ r.hits) × (run.new ≡ run_left (shaped r) (length run.old)) × (marks.new ≡ marks_left (shaped r) (length marks.old))) }
    {
        clear_ties(marks);
        let mut first = Run::new(run);
        let hits = self.fill(text, &mut first, &mut marks[..text.len()]);
        let glyphs = first.len();
        first.close();
        let hits = hits?;
        Ok(Laid { glyphs, hits })
    }

    // Shapes a text into the memory that is lent. What lies past the result is zero, and all is zero where the hit limit or the room ended it; where something was refused before, nothing changes.
    pub fn shape(&self, text: &[u32], run: &mut [Glyph], marks: &mut [u8]) -> Result<Laid, Refusal>
        ensures first { (n : ℕ) → refused_first (length text.now) (length run.old) (length marks.old) self.now.limit (lookup_count self.now.table.table.now) self.now.plan.now ≡ Some n → (told result ≡ refused n) × (run.new ≡ run.old) × (marks.new ≡ marks.old) }
        ensures outcome { refused_first (length text.now) (length run.old) (length marks.old) self.now.limit (lookup_count self.now.table.table.now) self.now.plan.now ≡ None → (o : Outcome) × Shapes (inputs_of (S.FontSource.means self.now.source.now) self.now.table.table.now self.now.plan.now self.now.limit (length run.old)) text.now o × (told result ≡ answer_of o) × (run.new ≡ run_left o (length run.old)) × (marks.new ≡ marks_left o (length marks.old)) }
    {
        self.check(text, run.len(), marks.len())?;
        match self.lay_out(text, run, marks) {
            Ok(laid) => Ok(laid),
            Err(stop) => {
                run::clear(run);
                clear_ties(marks);
                Err(Refusal::from(stop))
            }
        }
    }
}
