ghost use Rattle.std.specs.Prelude.{◌≡◌, ◌≤◌, ◌<◌, ℕ, false, length};
ghost use Rattle.paragraph.specs.Calls.{Inputs as AllInputs, Memory, is_shaped, pay, waive};
ghost use Rattle.paragraph.specs.Step.{Step, foreign, wrong_ends};
ghost use Rattle.paragraph.specs.Told.{inputs_of, memory, pay_told, waive_told};

use crate::fill::fill;
use crate::refusal::Refusal;
use crate::shaped::Shaped;
use font::source::FontSource;
use model::Glyph;
use shaping::shape::{Inputs, Laid};

// The characters from `first` to before `last`, owed. It cannot be let go: pay or waive takes it.
pub struct Slip {
    pub(crate) number: u32,
    pub(crate) first: u32,
    pub(crate) last: u32,
}

impl Slip {
    fn is_foreign(&self, of: &Shaped) -> bool
        ensures { result ≡ foreign of.now self.now }
    {
        self.number != of.number || of.owed == 0
    }

    fn has_wrong_ends(&self, text: &[u32]) -> bool
        ensures answer { (x : AllInputs) → x.text ≡ text.now → result ≡ wrong_ends x self.now }
        ensures inside { result ≡ false → (self.now.first < self.now.last) × (self.now.last ≤ length text.now) }
    {
        self.first >= self.last || self.last as usize > text.len()
    }

    // The slip is paid or waived.
    pub(crate) fn spend(self) {
        let Slip {
            number: _,
            first: _,
            last: _,
        } = self;
    }

    // Shapes the slip's characters alone, by the paragraph's hit limit, into memory of the caller's own. A refusal hands the slip back.
    pub fn pay<S: FontSource>(
        self,
        of: &mut Shaped,
        inputs: &Inputs<'_, S>,
        text: &[u32],
        run: &mut [Glyph],
        marks: &mut [u8],
    ) -> Result<Laid, (Slip, Refusal)>
        ensures { (advance : ℕ → ℕ) (limit : ℕ) (m : Memory) → Step (inputs_of (S.FontSource.means inputs.now.source.now) advance inputs.now.table.table.now inputs.now.plan.now text.now limit) m (is_shaped of.old) (pay self (memory run.old marks.old)) (pay_told self result (memory run.new marks.new)) (is_shaped of.new) m }
    {
        if self.is_foreign(of) {
            return Err((self, Refusal::WrongSlip));
        }
        if self.has_wrong_ends(text) {
            return Err((self, Refusal::Ends));
        }
        let characters = &text[self.first as usize..self.last as usize];
        match fill(inputs, of.limit, characters, run, marks) {
            Ok(laid) => {
                of.owed -= 1;
                self.spend();
                Ok(laid)
            }
            Err(refusal) => Err((self, Refusal::from(refusal))),
        }
    }

    // Lets the characters go unshaped. A refusal hands the slip back.
    pub fn waive(self, of: &mut Shaped) -> Result<(), (Slip, Refusal)>
        ensures { (x : AllInputs) (m : Memory) → Step x m (is_shaped of.old) (waive self) (waive_told result) (is_shaped of.new) m }
    {
        if self.is_foreign(of) {
            return Err((self, Refusal::WrongSlip));
        }
        of.owed -= 1;
        self.spend();
        Ok(())
    }
}
