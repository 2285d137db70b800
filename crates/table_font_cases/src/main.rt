// Runs a table of cases from standard input, a line each: NAME | CMAP | GDEF | HMTX | METRICS | LENGTHS | QUESTIONS.
// A table is its words, 16 bits each. Three lengths in bytes, a word that is no number for a table's own length, cut the tables short or fill them up with zeros.
// Where the tables are accepted, the questions are answered: glyph:CHARACTER, class:GLYPH, mark:GLYPH, advance:GLYPH, set:NUMBER:GLYPH.
// What it shares with the other programs of cases stays in each: as a crate it would be public functions about how a test is written.
#![tactic(auto)]

use font::glyph_class::GlyphClass;
use font::source::{FontSource, MeasuredSource};
use std::alloc::{AllocError, Global};
use std::io;
use std::io::{BufRead, BufReader};
use table_font::table::TableFont;

fn number(word: &str) -> u16 {
    word.trim().parse::<u16>().unwrap_or(0)
}

// The words as bytes, cut or filled to a length.
fn bytes_of(heap: Global, words: &str, length: Option<&str>) -> Result<Vec<u8>, AllocError> {
    let mut bytes = Vec::new(heap);
    let length = length.unwrap_or("").parse::<usize>().ok();
    let most = length.unwrap_or(usize::MAX);
    for word in words.split_whitespace() {
        for byte in number(word).to_be_bytes() {
            if bytes.len() < most {
                bytes.push(byte)?;
            }
        }
    }
    for _ in bytes.len()..length.unwrap_or(0) {
        bytes.push(0)?;
    }
    Ok(bytes)
}

fn print_set(rt: &HostRuntime, font: &TableFont<'_>, set_and_glyph: &str) -> io::Result<()> {
    let (set, glyph) = set_and_glyph.split_once(':').unwrap_or(("", ""));
    if font.in_mark_set(number(set), number(glyph)) {
        print!(rt; " yes")
    } else {
        print!(rt; " no")
    }
}

fn print_answer(rt: &HostRuntime, font: &TableFont<'_>, question: &str) -> io::Result<()> {
    print!(rt; ", {question}")?;
    let (kind, of) = question.split_once(':').unwrap_or(("", ""));
    // A question is a word, so what it asks is found by its text.
    let answer = match kind {
        "glyph" => font.glyph(of.parse::<u32>().unwrap_or(0)),
        "class" => u16::from(font.class(number(of)).map_or(0, GlyphClass::number)),
        "mark" => font.mark_class(number(of)),
        "advance" => font.advance(number(of)),
        _ => return print_set(rt, font, of),
    };
    print!(rt; " {answer}")
}

fn case(rt: &HostRuntime, line: &str) -> io::Result<()> {
    let mut parts = line.split('|');
    let name = parts.next().unwrap_or("").trim();
    let cmap = parts.next().unwrap_or("");
    let gdef = parts.next().unwrap_or("");
    let hmtx = parts.next().unwrap_or("");
    let metrics = number(parts.next().unwrap_or(""));
    let mut lengths = parts.next().unwrap_or("").split_whitespace();
    let cmap = bytes_of(rt.alloc(), cmap, lengths.next())?;
    let gdef = bytes_of(rt.alloc(), gdef, lengths.next())?;
    let hmtx = bytes_of(rt.alloc(), hmtx, lengths.next())?;
    let mut font = TableFont::new();
    print!(rt; "{name}: ")?;
    match font.read(cmap.as_slice(), gdef.as_slice(), hmtx.as_slice(), metrics) {
        Err(fault) => println!(rt; "{fault}"),
        Ok(()) => {
            print!(rt; "accepted")?;
            for question in parts.next().unwrap_or("").split_whitespace() {
                print_answer(rt, &font, question)?;
            }
            println!(rt; "")
        }
    }
}

fn main(rt: HostRuntime) -> io::Result<()> {
    for line in BufReader::new(rt.alloc(), rt.stdin())?.lines(rt.alloc()) {
        let line = line?;
        case(&rt, line.as_str())?;
    }
    Ok(())
}
