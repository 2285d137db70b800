ghost use Rattle.std.specs.Prelude.{◌≡◌, ℕ};
ghost use Rattle.paragraph.specs.Calls.{is_blank, shape};
ghost use Rattle.paragraph.specs.Example.{Refuted, Worked};
ghost use Rattle.paragraph.specs.Law.{CuttingLaw};
ghost use Rattle.paragraph.specs.Nine.{NineExamples};
ghost use Rattle.paragraph.specs.Step.{Step};
ghost use Rattle.paragraph.specs.Told.{inputs_of, memory, shape_left, shape_told};

use crate::fill::fill;
use crate::refusal::Refusal;
use crate::shaped::Shaped;
use font::source::FontSource;
use model::Glyph;
use shaping::shape::Inputs;

// A blank paragraph. It knows only shape.
#[derive(Drop)]
pub struct Blank {
    pub(crate) number: u32,
}

impl Blank {
    // A paragraph with a number, by which its slips are told from those of others.
    pub fn new(number: u32) -> Blank
        ensures number { result.number ≡ number }
        ensures law { CuttingLaw }
        ensures worked { Worked }
        ensures refuted { Refuted }
        ensures examples { NineExamples }
    {
        Blank { number }
    }

    // Shapes a text into memory that is lent, and again to each later call. A refusal hands the paragraph back.
    pub fn shape<S: FontSource>(
        self,
        inputs: &Inputs<'_, S>,
        text: &[u32],
        run: &mut [Glyph],
        marks: &mut [u8],
    ) -> Result<Shaped, (Blank, Refusal)>
        ensures { (advance : ℕ → ℕ) → Step (inputs_of (S.FontSource.means inputs.now.source.now) advance inputs.now.table.table.now inputs.now.plan.now text.now inputs.now.limit) (memory run.old marks.old) (is_blank self.number) shape (shape_told result) (shape_left result) (memory run.new marks.new) }
    {
        match fill(inputs, inputs.limit, text, run, marks) {
            Ok(laid) => Ok(Shaped {
                number: self.number,
                length: text.len(),
                count: laid.glyphs,
                hits: laid.hits,
                limit: inputs.limit,
                owed: 0,
            }),
            Err(refusal) => Err((self, Refusal::from(refusal))),
        }
    }
}
