// Runs a table of cases from standard input, a line each: NAME | WORDS | LENGTH.
// The table is the words, 16 bits each, where N*V stands for N words V, cut to a length in bytes; a length that is no number cuts nothing, but `each` cuts it to every length in turn, a line each.
// It is checked as a GSUB table, and the lookups and subtables of an accepted table are counted.
// What it shares with the other programs of cases stays in each: as a crate it would be public functions about how a test is written.
#![tactic(auto)]

use gsub::table::Gsub;
use std::alloc::{AllocError, Global};
use std::io;
use std::io::{BufRead, BufReader};

fn number(word: &str) -> u16 {
    word.trim().parse::<u16>().unwrap_or(0)
}

fn bytes_of(heap: Global, words: &str, length: usize) -> Result<Vec<u8>, AllocError> {
    let mut bytes = Vec::new(heap);
    for word in words.split_whitespace() {
        let (times, value) = word.split_once('*').unwrap_or(("1", word));
        let pair = number(value).to_be_bytes();
        for _ in 0..times.parse::<usize>().unwrap_or(0) {
            for byte in pair {
                if bytes.len() < length {
                    bytes.push(byte)?;
                }
            }
        }
    }
    Ok(bytes)
}

fn print_answer(rt: &HostRuntime, name: &str, table: &[u8]) -> io::Result<()> {
    let mut gsub = Gsub::new();
    match gsub.read(rt.alloc(), table) {
        Ok(()) => {
            let (lookups, subtables) = (gsub.lookup_count(), gsub.subtables());
            println!(rt; "{name}: accepted, {lookups} lookups, {subtables} subtables")
        }
        Err(fault) => println!(rt; "{name}: {fault}"),
    }
}

fn case(rt: &HostRuntime, line: &str) -> io::Result<()> {
    let mut parts = line.split('|');
    let name = parts.next().unwrap_or("").trim();
    let words = parts.next().unwrap_or("");
    let length = parts.next().unwrap_or("").trim();
    let most = length.parse::<usize>().unwrap_or(usize::MAX);
    let bytes = bytes_of(rt.alloc(), words, most)?;
    if length == "each" {
        for length in 0..=bytes.len() {
            let name = format!(in rt.alloc(); "{name}, cut to {length}")?;
            print_answer(rt, name.as_str(), &bytes[..length])?;
        }
        return Ok(());
    }
    print_answer(rt, name, bytes.as_slice())
}

fn main(rt: HostRuntime) -> io::Result<()> {
    for line in BufReader::new(rt.alloc(), rt.stdin())?.lines(rt.alloc()) {
        let line = line?;
        case(&rt, line.as_str())?;
    }
    Ok(())
}
