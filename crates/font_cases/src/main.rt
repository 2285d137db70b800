// Runs a table of cases from standard input, a line each: NAME | LABEL FILE | PAIRS | CHARACTERS.
// In the label file `\t`, `\n` and `\r` are written as such; a pair is `65=66`; characters are asked for by number.
#![tactic(auto)]

ghost use Rattle.std.specs.Prelude.{◌≡◌};
ghost use Rattle.font.specs.StandIn.{stand_in_font, pairs_of};
ghost use Rattle.label_font.specs.LabelFont.{font_of_label, rows_of};

use font::glyph_class::GlyphClass;
use font::pairs::{Pair, PairTable};
use font::refusal::Refusal;
use font::source::{FontSource, MeasuredSource};
use font::stand_in::StandIn;
use label_font::table::LabelFont;
use std::alloc::{AllocError, Global};
use std::io;
use std::io::{BufRead, BufReader};

// A layer over a layer is a source like any other.
pub fn through_two_layers(
    font: LabelFont,
    lower: PairTable,
    upper: PairTable,
    character: u32,
) -> u16
    ensures { result ≡ (stand_in_font (stand_in_font (font_of_label (rows_of font)) (pairs_of lower)) (pairs_of upper)).glyph character }
{
    let layered = StandIn {
        below: StandIn {
            below: font,
            table: lower,
        },
        table: upper,
    };
    layered.glyph(character)
}

// What a letter behind a backslash stands for.
fn meant(letter: u8) -> u8 {
    match letter {
        b't' => b'\t',
        b'r' => b'\r',
        _ => b'\n',
    }
}

// The bytes that a case writes with escapes.
fn unescaped(heap: Global, text: &str) -> Result<Vec<u8>, AllocError> {
    let mut bytes = Vec::new(heap);
    let mut written = text.bytes();
    while let Some(byte) = written.next() {
        if byte != b'\\' {
            bytes.push(byte)?;
        } else if let Some(letter) = written.next() {
            bytes.push(meant(letter))?;
        }
    }
    Ok(bytes)
}

fn number_of(word: &str) -> u32 {
    word.parse::<u32>().unwrap_or(0)
}

fn pairs(text: &str) -> Result<PairTable, Refusal> {
    let mut table = PairTable::new();
    for word in text.split_whitespace() {
        if let Some((character, stand_in)) = word.split_once('=') {
            table.add(Pair {
                character: number_of(character),
                stand_in: number_of(stand_in),
            })?;
        }
    }
    Ok(table)
}

// The font of a case and its stand-ins, unless the file or the pairs are refused.
fn source_of(file: &[u8], stand_ins: &str) -> Result<StandIn<LabelFont>, Refusal> {
    let mut font = LabelFont::new();
    font.read(file)?;
    Ok(StandIn {
        below: font,
        table: pairs(stand_ins)?,
    })
}

fn asked<S: MeasuredSource>(rt: &HostRuntime, source: &S, characters: &str) -> io::Result<()> {
    for word in characters.split_whitespace() {
        let character = number_of(word);
        let glyph = source.glyph(character);
        let class = source.class(glyph).map_or(0, GlyphClass::number);
        let mark_class = source.mark_class(glyph);
        let advance = source.advance(glyph);
        let in_set = source.in_mark_set(0, glyph);
        print!(rt; ", {character}: {glyph} {class} {mark_class} {advance} {in_set}")?;
    }
    println!(rt; "")
}

fn case(rt: &HostRuntime, line: &str) -> io::Result<()> {
    let mut parts = line.split('|');
    let name = parts.next().unwrap_or("").trim();
    let file = unescaped(rt.alloc(), parts.next().unwrap_or("").trim())?;
    let source = source_of(file.as_slice(), parts.next().unwrap_or(""));
    print!(rt; "{name}: ")?;
    match source {
        Err(refusal) => println!(rt; "{refusal}"),
        Ok(source) => {
            let count = source.below.rows().len();
            print!(rt; "{count} rows")?;
            asked(rt, &source, parts.next().unwrap_or(""))
        }
    }
}

fn main(rt: HostRuntime) -> io::Result<()> {
    for line in BufReader::new(rt.alloc(), rt.stdin())?.lines(rt.alloc()) {
        let line = line?;
        case(&rt, line.as_str())?;
    }
    Ok(())
}
