use crate::failure::Failure;
use font::source::{MeasuredSource, run_width};
use report::{glyphs_of, numbers_line};
use std::alloc::Global;

// The glyph of each character, and the width of them all.
pub fn glyphs<S: MeasuredSource>(
    heap: Global,
    source: &S,
    text: &[u32],
) -> Result<String, Failure> {
    let glyphs = glyphs_of(heap, source, text)?;
    let width = run_width(source, glyphs.as_slice())?;
    let end = format!(in heap; "\nwidth: {width}\n")?;
    let mut line = numbers_line(heap, "glyphs:", glyphs.as_slice())?;
    // The line is long: it gets room for its end alone, and no second copy.
    line.reserve_exact(end.len())?;
    line.push_str(end.as_str())?;
    Ok(line)
}
