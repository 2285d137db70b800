use crate::failure::Failure;
use crate::files::Files;
use crate::performed::Part;
use crate::setup::Setup;
use asking::asked::ShapeOptions;
use asking::usage::UsageError;
use font::source::{MeasuredSource, run_width};
use model::Glyph;
use paragraph::calls::{Answer, Call};
use parsing::list::numbers_of;
use pick::line::pick;
use report::{marks_line, records_line};
use std::alloc::{AllocError, Global};

// The places that a word writes, up to one more than a text of so many characters has: so many cannot all lie inside it,
// and rise, so that a line before the last of them is refused.
fn places(heap: Global, word: &str, characters: usize) -> Result<Vec<u32>, Failure> {
    let mut places = vec![in heap; 0; characters.saturating_add(1)]?;
    match numbers_of(word, places.as_mut_slice()) {
        Some(count) => {
            places.truncate(count);
            Ok(places)
        }
        None => Err(Failure::usage(heap, UsageError::BadBreaks(word))),
    }
}

// A line, by its first character and the one that follows it.
#[derive(Clone, Copy)]
struct Ends {
    from: u32,
    to: u32,
}

// The lines between breaks, up to the text's end. A text of no characters and no breaks has none.
fn lines_between(heap: Global, breaks: &[u32], length: u32) -> Result<Vec<Ends>, AllocError> {
    let mut lines = Vec::new(heap);
    let mut from = 0;
    for place in breaks {
        let to = *place;
        lines.push(Ends { from, to })?;
        from = to;
    }
    if length > 0 || !breaks.is_empty() {
        lines.push(Ends { from, to: length })?;
    }
    Ok(lines)
}

// The text is shaped, each line is given out, and each slip that there may be is paid.
fn calls_for(heap: Global, lines: &[Ends]) -> Result<Vec<Call<()>>, AllocError> {
    let mut calls = Vec::new(heap);
    calls.push(Call::Shape(()))?;
    for line in lines {
        let (a, b) = (line.from, line.to);
        calls.push(Call::Line { a, b })?;
    }
    for slip in 1..=lines.len() {
        calls.push(Call::Pay { slip })?;
    }
    Ok(calls)
}

// What lines are printed from: the text as a whole, and how the slips were paid, in their order.
#[derive(Clone, Copy)]
struct Given<'a, S: MeasuredSource> {
    heap: Global,
    source: &'a S,
    whole: Part<'a>,
    hits: u32,
    payments: &'a [Answer],
}

impl<S: MeasuredSource> Given<'_, S> {
    fn line(&self, ends: Ends, how: &str, run: &[Glyph], marks: &[u8]) -> Result<String, Failure> {
        let Ends { from, to } = ends;
        let width = run_width(self.source, run)?;
        let glyphs = records_line(self.heap, "glyphs:", run)?;
        let marks = marks_line(self.heap, "marks:", marks)?;
        Ok(format!(in self.heap; "{from}-{to} {how} {glyphs} {marks} width: {width}\n")?)
    }

    // A line that was kept: its records, picked from the whole, and its marks.
    fn kept(&self, ends: Ends, count: usize) -> Result<String, Failure> {
        let blank = Glyph {
            glyph: 0,
            cluster: 0,
        };
        let mut run = vec![in self.heap; blank; count]?;
        pick(self.whole.run, ends.from, ends.to, run.as_mut_slice())?;
        let marks = self
            .whole
            .marks
            .get(ends.from as usize..ends.to as usize)
            .unwrap_or(&[]);
        self.line(ends, "kept", run.as_slice(), marks)
    }

    // A line that was paid for, with what was given from it on.
    fn paid(&self, ends: Ends, slip: usize, rest: &mut Part<'_>) -> Result<String, Failure> {
        match self.payments.get(slip.saturating_sub(1)) {
            Some(
                Answer::Paid {
                    glyphs,
                    marks,
                    hits: _,
                },
            ) => {
                let part = rest.take(*glyphs, *marks);
                self.line(ends, "paid", part.run, part.marks)
            }
            Some(Answer::Refused(refusal)) => Err(Failure::Refused(*refusal)),
            _ => Err(Failure::Unanswered),
        }
    }

    fn said(&self, ends: Ends, answer: &Answer, rest: &mut Part<'_>) -> Result<String, Failure> {
        match answer {
            Answer::Kept { first: _, count } => self.kept(ends, *count),
            Answer::Owed { slip } => self.paid(ends, *slip, rest),
            Answer::Refused(refusal) => Err(Failure::Refused(*refusal)),
            _ => Err(Failure::Unanswered),
        }
    }

    // The lines, with what was paid for in their order, and their sums.
    fn page(&self, lines: &[Ends], answers: &[Answer], paid: Part<'_>) -> Result<String, Failure> {
        let mut rest = paid;
        let mut page = String::new(self.heap);
        for (ends, answer) in lines.iter().zip(answers.iter()) {
            page.push_str(self.said(*ends, answer, &mut rest)?.as_str())?;
        }
        let count = lines.len();
        let kept = answers
            .iter()
            .filter(|answer| matches!(answer, Answer::Kept { first: _, count: _ }))
            .count();
        let paid = answers
            .iter()
            .filter(|answer| matches!(answer, Answer::Owed { slip: _ }))
            .count();
        let hits = self.hits;
        let width = run_width(self.source, self.whole.run)?;
        page.push_str(format!(in self.heap;
            "lines: {count}, kept: {kept}, paid: {paid}, hits: {hits}, width: {width}\n"
        )?.as_str())?;
        Ok(page)
    }
}

// The lines of a text that is shaped once, from breaks: each kept, or paid for where an end is not free.
pub fn lines<F: Files, S: MeasuredSource>(
    files: &F,
    source: &S,
    text: &[u32],
    asked: ShapeOptions,
    breaks: &str,
) -> Result<String, Failure> {
    let heap = files.heap();
    let breaks = places(heap, breaks, text.len())?;
    let length = u32::try_from(text.len()).unwrap_or(u32::MAX);
    let lines = lines_between(heap, breaks.as_slice(), length)?;
    let calls = calls_for(heap, lines.as_slice())?;
    let setup = Setup::read(files, asked)?;
    let performed = setup.perform(heap, source, text, calls.as_slice())?;
    let mut parts = Part::of(&performed.copies);
    match performed.answers.as_slice() {
        [
            Answer::Shaped {
                glyphs,
                marks,
                hits,
            },
            rest @ ..,
        ] => {
            let given = Given {
                heap,
                source,
                whole: parts.take(*glyphs, *marks),
                hits: *hits,
                payments: rest.get(lines.len()..).unwrap_or(&[]),
            };
            given.page(lines.as_slice(), rest, parts)
        }
        [Answer::Refused(refusal), ..] => Err(Failure::Refused(*refusal)),
        _ => Err(Failure::Unanswered),
    }
}
