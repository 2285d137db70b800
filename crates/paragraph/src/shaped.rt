ghost use Rattle.std.specs.Prelude.{◌≡◌, ◌≤◌, ◌<◌, ◌+◌, ◌&&◌, ◌||◌, List, false, length, nat_le, nat_lt};
ghost use Rattle.model.specs.declared.Glyph.{Glyph};
ghost use Rattle.paragraph.specs.Calls.{Inputs, Memory, clear, is_shaped, line};
ghost use Rattle.paragraph.specs.Step.{Step, free, owing, too_small};
ghost use Rattle.paragraph.specs.Told.{clear_left, clear_told, line_told, memory};

use crate::blank::Blank;
use crate::line::Line;
use crate::refusal::Refusal;
use crate::slip::Slip;
use model::Glyph;
use pick::line::find_line;

// A shaped paragraph: plain numbers, whose run and marks are lent at each call. It does not know shape until it is cleared.
#[derive(Drop)]
pub struct Shaped {
    pub(crate) number: u32,
    pub(crate) length: usize,
    pub(crate) count: usize,
    pub(crate) hits: u32,
    pub(crate) limit: u32,
    pub(crate) owed: u16,
}

impl Shaped {
    pub fn glyphs(&self) -> usize
        ensures { result ≡ self.now.count }
    {
        self.count
    }

    pub fn hits(&self) -> u32
        ensures { result ≡ self.now.hits }
    {
        self.hits
    }

    // How many slips are owed.
    pub fn owed(&self) -> u16
        ensures { result ≡ self.now.owed }
    {
        self.owed
    }

    // Whether the text may be broken at a place, by the paragraph's marks.
    fn is_free(&self, marks: &[u8], c: usize) -> bool
        requires { self.now.length ≤ length marks.now }
        ensures { (run : List Glyph) → result ≡ free self.now (memory run marks.now) c }
    {
        c == self.length || (c < self.length && marks[c] == 0)
    }

    fn are_free(&self, marks: &[u8], a: usize, b: usize) -> bool
        requires { self.now.length ≤ length marks.now }
        ensures { (run : List Glyph) → result ≡ (free self.now (memory run marks.now) a && free self.now (memory run marks.now) b) }
    {
        self.is_free(marks, a) && self.is_free(marks, b)
    }

    fn ends_past(&self, a: usize, b: usize) -> bool
        ensures { result ≡ (nat_le b a || nat_lt self.now.length b) }
    {
        a >= b || b > self.length
    }

    // Whether what is lent is not long enough to be the paragraph's, or the run too long.
    fn is_too_small(&self, run: &[Glyph], marks: &[u8]) -> bool
        ensures answer { result ≡ too_small self.now (memory run.now marks.now) }
        ensures long { result ≡ false → (self.now.count ≤ length run.now) × (self.now.length ≤ length marks.now) }
    {
        run.len() > 65_535 || run.len() < self.count || marks.len() < self.length
    }

    // One slip more.
    fn owe(&mut self, a: u32, b: u32) -> Slip
        requires { self.old.owed < 65535 }
        ensures slip { result ≡ record { number = self.old.number; first = a; last = b } }
        ensures owed { self.new ≡ owing self.old (self.old.owed + 1) }
    {
        self.owed += 1;
        Slip {
            number: self.number,
            first: a,
            last: b,
        }
    }

    // The line of the characters from `a` to before `b`, with the paragraph's run and marks lent: kept where both its ends are free, else a slip.
    pub fn line(&mut self, a: u32, b: u32, run: &[Glyph], marks: &[u8]) -> Result<Line, Refusal>
        ensures { (x : Inputs) → Step x (memory run.now marks.now) (is_shaped self.old) (line a b) (line_told a b result) (is_shaped self.new) (memory run.now marks.now) }
    {
        let start = a as usize;
        let end = b as usize;
        if self.ends_past(start, end) {
            return Err(Refusal::Ends);
        }
        if self.is_too_small(run, marks) {
            return Err(Refusal::Size);
        }
        if self.are_free(marks, start, end) {
            let line = find_line(&run[..self.count], a, b);
            return Ok(Line::Kept {
                first: line.first,
                count: line.count,
            });
        }
        if self.owed == 65_535 {
            return Err(Refusal::SlipsOwed);
        }
        Ok(Line::Owed(self.owe(a, b)))
    }

    // Blank again; refused, and handed back, while slips are owed.
    pub fn clear(self) -> Result<Blank, (Shaped, Refusal)>
        ensures { (x : Inputs) (m : Memory) → Step x m (is_shaped self) clear (clear_told result) (clear_left result) m }
    {
        if self.owed > 0 {
            return Err((self, Refusal::SlipsOwed));
        }
        Ok(Blank {
            number: self.number,
        })
    }
}
