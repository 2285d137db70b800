// Shaping for callers in C.
#![tactic(auto)]

pub mod answer;
mod tables;
#[cfg(test)]
mod tests;

ghost use Rattle.std.specs.Prelude.{◌≡◌, length};
ghost use Rattle.shape_c.specs.Answers.{answer_of};
ghost use Rattle.shape_c.specs.Calls.{Call, Comes, End, marks_after, run_after};

use crate::answer::Answer;
use crate::tables::Tables;
use model::{Entry, Glyph};
use shaping::shape::Inputs;
use std::alloc::Global;

// Shapes a text over GSUB, a cmap subtable of format 12 and GDEF, which is none where it has no bytes. In C a slice is a pointer and a length, and the heap is nothing.
#[unsafe(no_mangle)]
pub extern "C" fn mitqorad_shape(
    heap: Global,
    gsub: &[u8],
    cmap: &[u8],
    gdef: &[u8],
    plan: &[Entry],
    limit: u32,
    text: &[u32],
    run: &mut [Glyph],
    marks: &mut [u8],
) -> Answer
    ensures { let call : Call = record {
      gsub = gsub.now;
      cmap = cmap.now;
      gdef = gdef.now;
      plan = plan.now;
      limit = limit;
      text = text.now;
    } in
        (e : End) × Comes call (length run.old) (length marks.old) e
        × (result ≡ answer_of e)
        × (run.new ≡ run_after e run.old) × (marks.new ≡ marks_after e marks.old) }
{
    let tables = match Tables::checked(heap, gsub, cmap, gdef) {
        Ok(tables) => tables,
        Err(fault) => return Answer::faulty(fault.told()),
    };
    let inputs = Inputs {
        source: &tables.font,
        table: tables.gsub,
        plan,
        limit,
    };
    let came = inputs.shape(text, run, marks);
    Answer::of(came)
}
