use crate::failure::Failure;
use crate::files::Files;
use crate::setup::Setup;
use asking::asked::ShapeOptions;
use font::source::{MeasuredSource, run_width};
use report::{marks_line, records_line};

// The text, shaped: its glyphs with their clusters, its break marks, its hits and its width.
pub fn shape<F: Files, S: MeasuredSource>(
    files: &F,
    source: &S,
    text: &[u32],
    asked: ShapeOptions,
) -> Result<String, Failure> {
    let heap = files.heap();
    let setup = Setup::read(files, asked)?;
    let inputs = setup.inputs(heap, source)?;
    let mut memory = setup.memory(heap, text.len())?;
    let laid = inputs.shape(text, memory.run.as_mut_slice(), memory.marks.as_mut_slice())?;
    memory.run.truncate(laid.glyphs);
    let hits = laid.hits;
    let width = run_width(source, memory.run.as_slice())?;
    let glyphs = records_line(heap, "glyphs:", memory.run.as_slice())?;
    let marks = marks_line(heap, "marks:", memory.marks.as_slice())?;
    Ok(format!(in heap; "{glyphs}\n{marks}\nhits: {hits}\nwidth: {width}\n")?)
}
