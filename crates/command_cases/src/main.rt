// Runs calls of the program from standard input, a line each: the words of the call, where '' is an empty word, and behind a < the file that stands for standard input.
// Prints each call, what goes to standard output, what goes to standard error, and the exit status.
#![tactic(auto)]

use command::answer::answer;
use command::files::Files;
use std::alloc::{AllocError, Global};
use std::io::{BufRead, BufReader};
use std::{fs, io};

// The files of the folder, one of which stands for standard input.
#[derive(Clone, Copy)]
struct Folder<'a> {
    rt: &'a HostRuntime,
    given: &'a str,
}

impl Files for Folder<'_> {
    fn heap(&self) -> Global {
        self.rt.alloc()
    }

    fn file(&self, path: &str) -> io::Result<Vec<u8>> {
        fs::read(self.rt, path)
    }

    fn standard_input(&self) -> io::Result<Vec<u8>> {
        fs::read(self.rt, self.given)
    }
}

fn words_of(heap: Global, line: &str) -> Result<Vec<String>, AllocError> {
    let mut words = Vec::new(heap);
    for word in line.split_whitespace() {
        let word = if word == "''" { "" } else { word };
        words.push(String::from_str(heap, word)?)?;
    }
    Ok(words)
}

fn case(rt: &HostRuntime, line: &str) -> io::Result<()> {
    println!(rt; "$ {line}")?;
    let (call, given) = line.split_once(" < ").unwrap_or((line, ""));
    let words = words_of(rt.alloc(), call)?;
    match answer(&Folder { rt, given }, words.as_slice()) {
        Ok(page) => {
            rt.print(page)?;
            println!(rt; "status: 0")
        }
        Err(failure) => {
            println!(rt; "error: {failure}")?;
            println!(rt; "status: 1")
        }
    }
}

fn main(rt: HostRuntime) -> io::Result<()> {
    for line in BufReader::new(rt.alloc(), rt.stdin())?.lines(rt.alloc()) {
        let line = line?;
        case(&rt, line.as_str())?;
    }
    Ok(())
}
