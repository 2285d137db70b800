// Runs a table of cases from standard input, a line each: KIND | NAME | WORDS | LENGTH | START | GLYPHS.
// The table is the words, 16 bits each, cut to a length in bytes; a coverage or a class definition is checked at the start, and glyphs are asked for; of a coverage the glyphs are counted.
// What it shares with the other programs of cases stays in each: as a crate it would be public functions about how a test is written.
#![tactic(auto)]

use layout::class::ClassDefinition;
use layout::coverage::Coverage;
use layout::structure::Structure;
use std::alloc::{AllocError, Global};
use std::io;
use std::io::{BufRead, BufReader};

fn number(word: &str) -> usize {
    word.trim().parse::<usize>().unwrap_or(0)
}

fn bytes_of(heap: Global, words: &str, length: usize) -> Result<Vec<u8>, AllocError> {
    let mut bytes = Vec::new(heap);
    for word in words.split_whitespace() {
        let word = word.parse::<u16>().unwrap_or(0);
        for byte in word.to_be_bytes() {
            if bytes.len() < length {
                bytes.push(byte)?;
            }
        }
    }
    Ok(bytes)
}

fn print_indices(rt: &HostRuntime, coverage: &Coverage<'_>, glyphs: &str) -> io::Result<()> {
    for word in glyphs.split_whitespace() {
        let glyph = word.parse::<u16>().unwrap_or(0);
        match coverage.index_of(glyph) {
            Some(index) => print!(rt; ", {glyph}: {index}")?,
            None => print!(rt; ", {glyph}: not covered")?,
        }
    }
    println!(rt; "")
}

fn print_classes(rt: &HostRuntime, classes: &ClassDefinition<'_>, glyphs: &str) -> io::Result<()> {
    for word in glyphs.split_whitespace() {
        let glyph = word.parse::<u16>().unwrap_or(0);
        let class = classes.class_of(glyph);
        print!(rt; ", {glyph}: {class}")?;
    }
    println!(rt; "")
}

fn case(rt: &HostRuntime, line: &str) -> io::Result<()> {
    let mut parts = line.split('|');
    let kind = parts.next().unwrap_or("").trim();
    let name = parts.next().unwrap_or("").trim();
    let words = parts.next().unwrap_or("");
    let length = number(parts.next().unwrap_or(""));
    let start = number(parts.next().unwrap_or(""));
    let glyphs = parts.next().unwrap_or("");
    let bytes = bytes_of(rt.alloc(), words, length)?;
    let structure = Structure::new(bytes.as_slice(), start);
    // A case is of one kind or the other, by a word.
    if kind == "classes" {
        return match ClassDefinition::checked(structure) {
            Err(fault) => println!(rt; "{name}: {fault}"),
            Ok(classes) => {
                print!(rt; "{name}: accepted")?;
                print_classes(rt, &classes, glyphs)
            }
        };
    }
    match Coverage::checked(structure) {
        Err(fault) => println!(rt; "{name}: {fault}"),
        Ok(coverage) => {
            let count = coverage.glyph_count();
            print!(rt; "{name}: accepted, {count} glyphs")?;
            print_indices(rt, &coverage, glyphs)
        }
    }
}

fn main(rt: HostRuntime) -> io::Result<()> {
    for line in BufReader::new(rt.alloc(), rt.stdin())?.lines(rt.alloc()) {
        let line = line?;
        case(&rt, line.as_str())?;
    }
    Ok(())
}
