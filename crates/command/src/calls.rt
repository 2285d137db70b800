use crate::content::Content;
use crate::failure::Failure;
use crate::files::Files;
use crate::meaning::refusal_meaning;
use crate::performed::Part;
use crate::setup::Setup;
use asking::asked::ShapeOptions;
use asking::input::Input;
use font::source::FontSource;
use paragraph::calls::{Answer, Call};
use report::{marks_line, records_line};
use std::alloc::{AllocError, Global};

fn name(call: Call<()>) -> &'static str {
    match call {
        Call::Shape(()) => "shape",
        Call::Line { a: _, b: _ } => "line",
        Call::Pay { slip: _ } => "pay",
        Call::Waive { slip: _ } => "waive",
        Call::Clear => "clear",
    }
}

// A call that the paragraph does not know: it is blank, but where shape is not known.
fn unknown(heap: Global, call: Call<()>) -> Result<String, AllocError> {
    let paragraph = match call {
        Call::Shape(()) => "shaped",
        _ => "blank",
    };
    let name = name(call);
    format!(in heap; "unknown: {name} on a {paragraph} paragraph\n")
}

fn not_in_hand(heap: Global, call: Call<()>) -> Result<String, AllocError> {
    match call {
        Call::Pay { slip } => format!(in heap; "unknown: slip {slip} is not in hand\n"),
        Call::Waive { slip } => format!(in heap; "unknown: slip {slip} is not in hand\n"),
        other => unknown(heap, other),
    }
}

fn given(heap: Global, title: &str, part: Part<'_>, hits: u32) -> Result<String, AllocError> {
    let glyphs = records_line(heap, "glyphs:", part.run)?;
    let marks = marks_line(heap, "marks:", part.marks)?;
    format!(in heap; "{title} {glyphs} {marks} hits: {hits}\n")
}

// What is said of a call, with what was given from it on.
fn said(
    heap: Global,
    call: Call<()>,
    answer: Answer,
    rest: &mut Part<'_>,
) -> Result<String, AllocError> {
    match answer {
        Answer::Unknown => unknown(heap, call),
        Answer::NotInHand => not_in_hand(heap, call),
        Answer::NoPlace => String::from_str(heap, "unknown: no place is left for a slip\n"),
        Answer::Shaped {
            glyphs,
            marks,
            hits,
        } => given(heap, "shaped", rest.take(glyphs, marks), hits),
        Answer::Kept { first, count } => format!(in heap; "kept first {first} count {count}\n"),
        Answer::Owed { slip } => format!(in heap; "slip {slip}\n"),
        Answer::Paid {
            glyphs,
            marks,
            hits,
        } => given(heap, "paid", rest.take(glyphs, marks), hits),
        Answer::Waived => String::from_str(heap, "waived\n"),
        Answer::Cleared => String::from_str(heap, "cleared\n"),
        Answer::Refused(refusal) => {
            let number = refusal.number();
            let meaning = refusal_meaning(refusal);
            format!(in heap; "refused {number}: {meaning}\n")
        }
    }
}

// What a paragraph of the text answers to the lines of a script, at whose end what is owed is waived.
pub fn calls<F: Files, S: FontSource>(
    files: &F,
    source: &S,
    text: &[u32],
    asked: ShapeOptions,
    script: Input,
) -> Result<String, Failure> {
    let heap = files.heap();
    let script = Content::read(files, script)?.calls(heap)?;
    let setup = Setup::read(files, asked)?;
    let performed = setup.perform(heap, source, text, script.as_slice())?;
    let mut rest = Part::of(&performed.copies);
    let mut page = String::new(heap);
    for (call, answer) in script.iter().zip(performed.answers.iter()) {
        page.push_str(said(heap, *call, *answer, &mut rest)?.as_str())?;
    }
    let waived = performed.waived;
    if waived > 0 {
        page.push_str(format!(in heap; "end: waived {waived}\n")?.as_str())?;
    }
    Ok(page)
}
