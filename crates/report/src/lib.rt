// What the program says of a text: its glyphs, and the lines that list them and their break marks.
#![tactic(auto)]

ghost use Rattle.std.specs.Prelude.{◌≡◌, ◌++◌, map, IfOk, string_bytes, codes, decimal};
ghost use Rattle.std.specs.List.{flat_map};

use font::source::FontSource;
use model::Glyph;
use std::alloc::{AllocError, Global};

// The glyph of each character.
pub fn glyphs_of<S: FontSource>(
    heap: Global,
    source: &S,
    text: &[u32],
) -> Result<Vec<u16>, AllocError>
    ensures { IfOk result (λ glyphs. glyphs.items ≡ map (S.FontSource.means source.now).glyph text.now) }
{
    text.iter()
        .map(|character| source.glyph(*character))
        .collect(heap)
}

// A line of numbers, each behind a space.
pub fn numbers_line(heap: Global, title: &str, numbers: &[u16]) -> Result<String, AllocError>
    ensures { IfOk result (λ line. string_bytes line ≡ title.now ++ flat_map (λ n. codes " " ++ decimal n) numbers.now) }
{
    let mut line = String::from_str(heap, title)?;
    // A loop, since what a chain collects would have to be joined to the title in a second text.
    for n in numbers {
        line.push_str(format!(in heap; " {n}")?.as_str())?;
    }
    Ok(line)
}

// A line of break marks, each behind a space.
pub fn marks_line(heap: Global, title: &str, marks: &[u8]) -> Result<String, AllocError>
    ensures { IfOk result (λ line. string_bytes line ≡ title.now ++ flat_map (λ m. codes " " ++ decimal m) marks.now) }
{
    let mut line = String::from_str(heap, title)?;
    for mark in marks {
        line.push_str(format!(in heap; " {mark}")?.as_str())?;
    }
    Ok(line)
}

// A line of a run's records, each behind a space: its glyph, a colon and its cluster.
pub fn records_line(heap: Global, title: &str, records: &[Glyph]) -> Result<String, AllocError>
    ensures { IfOk result (λ line. string_bytes line ≡ title.now ++ flat_map (λ r. codes " " ++ decimal r.glyph ++ codes ":" ++ decimal r.cluster) records.now) }
{
    let mut line = String::from_str(heap, title)?;
    for record in records {
        let Glyph { glyph, cluster } = *record;
        line.push_str(format!(in heap; " {glyph}:{cluster}")?.as_str())?;
    }
    Ok(line)
}
