use crate::refusal::Refusal;
use font::source::FontSource;
use model::Glyph;
use shaping::shape::Inputs;

// What shape is asked with: all that it reads.
#[derive(Clone, Copy)]
pub struct Given<'a, S: FontSource> {
    pub inputs: Inputs<'a, S>,
    pub text: &'a [u32],
}

// A call of a list. Shape brings what it is asked with: `Given` where the call is made, and nothing
// in a script. Pay and waive name a slip by its place in the hand, counted from 1.
#[derive(Clone, Copy, Debug, PartialEq)]
pub enum Call<T> {
    Shape(T),
    Line { a: u32, b: u32 },
    Pay { slip: usize },
    Waive { slip: usize },
    Clear,
}

// What a call of a list answered. How many glyphs and marks a text or a line has: they stand in the
// copies.
#[derive(Clone, Copy, Debug, PartialEq)]
pub enum Answer {
    // The paragraph does not know the call now.
    Unknown,
    // Its slip is not in the hand.
    NotInHand,
    // A line was not asked for, since the hand has no place left for a slip.
    NoPlace,
    Shaped {
        glyphs: usize,
        marks: usize,
        hits: u32,
    },
    Kept {
        first: usize,
        count: usize,
    },
    // A slip was given out, into this place of the hand.
    Owed {
        slip: usize,
    },
    Paid {
        glyphs: usize,
        marks: usize,
        hits: u32,
    },
    Waived,
    Cleared,
    Refused(Refusal),
}

// Memory that is lent: a run and marks.
#[derive(Drop)]
pub struct Memory {
    pub run: Vec<Glyph>,
    pub marks: Vec<u8>,
}
