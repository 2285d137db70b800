// Compares shaping with HarfBuzz over cases from standard input, which tools/harfbuzz_cases.py wrote and HarfBuzz answered. Lines of four kinds:
//     label | FILE                          the font of what follows: a label file, with `\t` and `\n` written as such
//     tables | CMAP | GDEF                  or tables
//     table | NAME | GSUB                   the table of what follows
//     case | PLAN | TEXT | ANSWER | WHY     what HarfBuzz answered; WHY names the rule by which we answer otherwise
// A table is its words, 16 bits each. A plan is `3` or `3=2`, a lookup and its alternate value. A text's word n is character 57344 + n.
// An answer has `GLYPH:CLUSTER` for each glyph, with `!` behind it where it is unsafe to break before that cluster.
#![tactic(auto)]

use font::source::FontSource;
use gsub::table::Gsub;
use label_font::table::LabelFont;
use model::{Entry, Glyph};
use shaping::refusal::Refusal;
use shaping::shape::Inputs;
use std::alloc::{AllocError, Global};
use std::io;
use std::io::{BufRead, BufReader};
use table_font::table::TableFont;

fn number(word: &str) -> u16 {
    word.trim().parse::<u16>().unwrap_or(0)
}

fn bytes_of(heap: Global, words: &str) -> Result<Vec<u8>, AllocError> {
    let mut bytes = Vec::new(heap);
    for word in words.split_whitespace() {
        bytes.extend_from_slice(&number(word).to_be_bytes())?;
    }
    Ok(bytes)
}

// The bytes that a label file writes with escapes.
fn unescaped(heap: Global, text: &str) -> Result<Vec<u8>, AllocError> {
    let mut bytes = Vec::new(heap);
    let mut written = text.bytes();
    while let Some(byte) = written.next() {
        if byte != b'\\' {
            bytes.push(byte)?;
        } else if let Some(letter) = written.next() {
            bytes.push(if letter == b't' { b'\t' } else { b'\n' })?;
        }
    }
    Ok(bytes)
}

fn plan_of(heap: Global, words: &str) -> Result<Vec<Entry>, AllocError> {
    words
        .split_whitespace()
        .map(|word| {
            let (lookup, alternate) = word.split_once('=').unwrap_or((word, "1"));
            Entry {
                lookup: number(lookup),
                alternate: number(alternate),
            }
        })
        .collect(heap)
}

fn text_of(heap: Global, words: &str) -> Result<Vec<u32>, AllocError> {
    words
        .split_whitespace()
        .map(|word| 57_344 + u32::from(number(word)))
        .collect(heap)
}

// The answer of one shaping, as HarfBuzz's is written.
fn answer_of(
    heap: Global,
    laid: Result<usize, Refusal>,
    run: &[Glyph],
    marks: &[u8],
) -> Result<String, AllocError> {
    let mut answer = String::new(heap);
    match laid {
        Err(refusal) => {
            let number = refusal.number();
            answer.push_str(format!(in heap; "refused {number}")?.as_str())?;
        }
        Ok(glyphs) => {
            for record in run.iter().take(glyphs) {
                let Glyph { glyph, cluster } = *record;
                let tied = marks.get(cluster as usize).is_some_and(|mark| *mark != 0);
                let sign = if tied { "!" } else { "" };
                let space = if answer.is_empty() { "" } else { " " };
                answer.push_str(format!(in heap; "{space}{glyph}:{cluster}{sign}")?.as_str())?;
            }
        }
    }
    Ok(answer)
}

fn shaped<S: FontSource>(
    heap: Global,
    source: &S,
    table: &[u8],
    plan: &[Entry],
    text: &[u32],
) -> Result<String, AllocError> {
    let table = match Gsub::checked(heap, table) {
        Ok(table) => table,
        Err(fault) => return format!(in heap; "{fault}"),
    };
    let inputs = Inputs {
        source,
        table,
        plan,
        limit: 100_000,
    };
    let nil = Glyph {
        glyph: 0,
        cluster: 0,
    };
    let mut run = Vec::from_elem(heap, nil, 1_000)?;
    let mut marks = Vec::from_elem(heap, 0, text.len())?;
    let laid = inputs.shape(text, run.as_mut_slice(), marks.as_mut_slice());
    let glyphs = match laid {
        Ok(laid) => Ok(laid.glyphs),
        Err(refusal) => Err(refusal),
    };
    answer_of(heap, glyphs, run.as_slice(), marks.as_slice())
}

#[derive(Drop)]
enum FontFile {
    Label(Vec<u8>),
    Tables { cmap: Vec<u8>, gdef: Vec<u8> },
}

// What the cases that follow share.
#[derive(Drop)]
struct Setting {
    font: FontFile,
    name: String,
    gsub: Vec<u8>,
}

impl Setting {
    fn answer(&self, heap: Global, plan: &[Entry], text: &[u32]) -> Result<String, AllocError> {
        let table = self.gsub.as_slice();
        match &self.font {
            FontFile::Label(file) => {
                let mut font = LabelFont::new();
                match font.read(file.as_slice()) {
                    Ok(()) => shaped(heap, &font, table, plan, text),
                    Err(refusal) => format!(in heap; "{refusal}"),
                }
            }
            FontFile::Tables { cmap, gdef } => {
                let mut font = TableFont::new();
                match font.read(cmap.as_slice(), gdef.as_slice(), &[0; 4], 1) {
                    Ok(()) => shaped(heap, &font, table, plan, text),
                    Err(fault) => format!(in heap; "{fault}"),
                }
            }
        }
    }
}

#[derive(Clone, Copy)]
struct Tally {
    agree: u32,
    differ: u32,
    fail: u32,
}

// A case is counted, and told where the two answers differ or a rule is named for nothing.
fn case(rt: &HostRuntime, setting: &Setting, tally: &mut Tally, rest: &str) -> io::Result<()> {
    let heap = rt.alloc();
    let mut parts = rest.split('|');
    let plan = parts.next().unwrap_or("").trim();
    let text = parts.next().unwrap_or("").trim();
    let theirs = parts.next().unwrap_or("").trim();
    let why = parts.next().unwrap_or("").trim();
    let ours = setting.answer(
        heap,
        plan_of(heap, plan)?.as_slice(),
        text_of(heap, text)?.as_slice(),
    )?;
    if ours.as_str() == theirs && why.is_empty() {
        tally.agree = tally.agree.saturating_add(1);
        return Ok(());
    }
    let name = setting.name.as_str();
    print!(rt; "{name}, plan {plan}, text {text}: {ours}; HarfBuzz {theirs}: ")?;
    if why.is_empty() || ours.as_str() == theirs {
        tally.fail = tally.fail.saturating_add(1);
        return println!(rt; "FAILURE");
    }
    tally.differ = tally.differ.saturating_add(1);
    println!(rt; "{why}")
}

// Takes a line: what the cases behind it share, or a case.
fn read(rt: &HostRuntime, setting: &mut Setting, tally: &mut Tally, line: &str) -> io::Result<()> {
    let heap = rt.alloc();
    let (kind, rest) = line.split_once('|').unwrap_or(("", ""));
    let (first, second) = rest.split_once('|').unwrap_or((rest, ""));
    match kind.trim() {
        "label" => {
            setting.font = FontFile::Label(unescaped(heap, rest.trim())?);
        }
        "tables" => {
            setting.font = FontFile::Tables {
                cmap: bytes_of(heap, first)?,
                gdef: bytes_of(heap, second)?,
            };
        }
        "table" => {
            setting.name = String::from_str(heap, first.trim())?;
            setting.gsub = bytes_of(heap, second)?;
        }
        _ => return case(rt, setting, tally, rest),
    }
    Ok(())
}

fn main(rt: HostRuntime) -> io::Result<()> {
    let mut setting = Setting {
        font: FontFile::Label(Vec::new(rt.alloc())),
        name: String::new(rt.alloc()),
        gsub: Vec::new(rt.alloc()),
    };
    let mut tally = Tally {
        agree: 0,
        differ: 0,
        fail: 0,
    };
    for line in BufReader::new(rt.alloc(), rt.stdin())?.lines(rt.alloc()) {
        let line = line?;
        read(&rt, &mut setting, &mut tally, line.as_str())?;
    }
    let Tally {
        agree,
        differ,
        fail,
    } = tally;
    println!(rt; "{agree} agree, {differ} differ by a rule that is named, {fail} fail")
}
