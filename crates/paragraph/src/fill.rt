ghost use Rattle.std.specs.Prelude.{ℕ, List};
ghost use Rattle.paragraph.specs.Told.{Filled, inputs_of, memory};

use font::source::FontSource;
use model::Glyph;
use shaping::refusal::Refusal as ShapingRefusal;
use shaping::shape::{Inputs, Laid};

// Shapes characters by a hit limit, whatever that of the inputs is.
pub(crate) fn fill<S: FontSource>(
    inputs: &Inputs<'_, S>,
    limit: u32,
    text: &[u32],
    run: &mut [Glyph],
    marks: &mut [u8],
) -> Result<Laid, ShapingRefusal>
    ensures { (advance : ℕ → ℕ) (whole : List ℕ) (old : ℕ) → Filled (inputs_of (S.FontSource.means inputs.now.source.now) advance inputs.now.table.table.now inputs.now.plan.now whole old) limit text.now (memory run.old marks.old) result (memory run.new marks.new) }
{
    let limited = Inputs {
        source: inputs.source,
        table: inputs.table,
        plan: inputs.plan,
        limit,
    };
    limited.shape(text, run, marks)
}
