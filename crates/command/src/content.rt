use crate::failure::Failure;
use crate::files::Files;
use asking::input::Input;
use font::pairs::PairTable;
use paragraph::calls::Call;
use parsing::error::ReadError;
use parsing::pairs::pairs;
use parsing::script::script;
use parsing::text::{characters, numbers};
use std::alloc::Global;

// All bytes of a file.
pub fn bytes<F: Files>(files: &F, input: Input) -> Result<Vec<u8>, Failure> {
    let read = match input {
        Input::File(path) => files.file(path),
        Input::StandardInput => files.standard_input(),
    };
    match read {
        Ok(bytes) => Ok(bytes),
        Err(error) => Err(Failure::Sentence(format!(in files.heap();
            "cannot read {input}: {error}"
        )?)),
    }
}

// What was read, and where, which a message about it tells.
#[derive(Drop)]
pub struct Content<'a> {
    input: Input<'a>,
    bytes: Vec<u8>,
}

impl<'a> Content<'a> {
    pub fn read<F: Files>(files: &F, input: Input<'a>) -> Result<Content<'a>, Failure> {
        Ok(Content {
            input,
            bytes: bytes(files, input)?,
        })
    }

    // What is wrong with it, where each line should be something.
    fn failure(&self, heap: Global, error: ReadError, should_be: &str) -> Failure {
        let input = self.input;
        let sentence = match error {
            ReadError::NotUtf8 => format!(in heap; "{input} is not UTF-8"),
            ReadError::Line(line) => format!(in heap; "line {line} of {input} is not {should_be}"),
            ReadError::Refused(refusal) => return Failure::Source(refusal),
            ReadError::Memory => return Failure::Memory,
        };
        match sentence {
            Ok(sentence) => Failure::Sentence(sentence),
            Err(error) => Failure::from(error),
        }
    }

    // The characters of its text.
    pub fn characters(&self, heap: Global) -> Result<Vec<u32>, Failure> {
        characters(heap, self.bytes.as_slice()).map_err(|error| self.failure(heap, error, "text"))
    }

    // Character numbers, one a line.
    pub fn numbers(&self, heap: Global) -> Result<Vec<u32>, Failure> {
        numbers(heap, self.bytes.as_slice()).map_err(|error| self.failure(
            heap,
            error,
            "a character's number",
        ))
    }

    // Stand-in pairs, one a line.
    pub fn pairs(&self, heap: Global) -> Result<PairTable, Failure> {
        let should_be = "two characters' numbers, parted by a tab";
        pairs(self.bytes.as_slice()).map_err(|error| self.failure(heap, error, should_be))
    }

    // The calls of a script, one a line.
    pub fn calls(&self, heap: Global) -> Result<Vec<Call<()>>, Failure> {
        let should_be = "a call: shape, line A B, pay K, waive K or clear";
        script(heap, self.bytes.as_slice()).map_err(|error| self.failure(heap, error, should_be))
    }
}
