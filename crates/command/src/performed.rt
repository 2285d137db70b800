use model::Glyph;
use paragraph::calls::{Answer, Memory};
use std::alloc::{AllocError, Global};

// What a paragraph answered to a list of calls, call by call; the glyphs and marks that it gave, one behind the other; and how many slips were waived at the end.
#[derive(Drop)]
pub struct Performed {
    pub answers: Vec<Answer>,
    pub copies: Memory,
    pub waived: usize,
}

// A part of what was given.
#[derive(Clone, Copy)]
pub struct Part<'a> {
    pub run: &'a [Glyph],
    pub marks: &'a [u8],
}

impl<'a> Part<'a> {
    pub fn of(copies: &'a Memory) -> Part<'a> {
        Part {
            run: copies.run.as_slice(),
            marks: copies.marks.as_slice(),
        }
    }

    // So many glyphs and marks from the start; they are left out from then on.
    pub fn take(&mut self, glyphs: usize, marks: usize) -> Part<'a> {
        let (run, run_behind) = self.run.split_at(glyphs.min(self.run.len()));
        let (marks, marks_behind) = self.marks.split_at(marks.min(self.marks.len()));
        self.run = run_behind;
        self.marks = marks_behind;
        Part { run, marks }
    }
}

// Room for copies.
#[derive(Clone, Copy)]
pub struct Room {
    pub glyphs: usize,
    pub marks: usize,
}

impl Room {
    // Just enough for what was given, by the answers.
    pub fn wanted(answers: &[Answer]) -> Room {
        let mut room = Room {
            glyphs: 0,
            marks: 0,
        };
        for answer in answers {
            match *answer {
                Answer::Shaped {
                    glyphs,
                    marks,
                    hits: _,
                } => room.add(glyphs, marks),
                Answer::Paid {
                    glyphs,
                    marks,
                    hits: _,
                } => room.add(glyphs, marks),
                _ => (),
            }
        }
        room
    }

    fn add(&mut self, glyphs: usize, marks: usize) {
        self.glyphs = self.glyphs.saturating_add(glyphs);
        self.marks = self.marks.saturating_add(marks);
    }

    pub fn is_within(self, other: Room) -> bool {
        self.glyphs <= other.glyphs && self.marks <= other.marks
    }

    pub fn memory(self, heap: Global) -> Result<Memory, AllocError> {
        let blank = Glyph {
            glyph: 0,
            cluster: 0,
        };
        Ok(Memory {
            run: vec![in heap; blank; self.glyphs]?,
            marks: vec![in heap; 0; self.marks]?,
        })
    }
}
