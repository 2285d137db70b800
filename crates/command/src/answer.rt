use crate::calls::calls;
use crate::check::check;
use crate::content::Content;
use crate::failure::Failure;
use crate::files::Files;
use crate::fonts::{TableBytes, read_label};
use crate::glyphs::glyphs;
use crate::lines::lines;
use crate::shape::shape;
use asking::asked::{Command, Task, Text, TextOptions};
use asking::font_files::FontFiles;
use asking::help::HELP;
use asking::input::Input;
use font::pairs::PairTable;
use font::source::MeasuredSource;
use font::stand_in::StandIn;

fn stand_ins<F: Files>(files: &F, input: Option<Input>) -> Result<PairTable, Failure> {
    match input {
        Some(input) => Content::read(files, input)?.pairs(files.heap()),
        None => Ok(PairTable::new()),
    }
}

fn characters<F: Files>(files: &F, text: Text) -> Result<Vec<u32>, Failure> {
    match text {
        Text::Utf8(input) => Content::read(files, input)?.characters(files.heap()),
        Text::Codes(input) => Content::read(files, input)?.numbers(files.heap()),
    }
}

// What is asked about a text, over a font of any kind under the stand-ins.
fn over<F: Files, S: MeasuredSource + Drop>(
    files: &F,
    font: S,
    asked: TextOptions,
) -> Result<String, Failure> {
    let table = stand_ins(files, asked.stand_in)?;
    let source = StandIn { below: font, table };
    let text = characters(files, asked.text)?;
    match asked.task {
        Task::Glyphs => glyphs(files.heap(), &source, text.as_slice()),
        Task::Shape(shaping) => shape(files, &source, text.as_slice(), shaping),
        Task::Lines { shaping, breaks } => lines(files, &source, text.as_slice(), shaping, breaks),
        Task::Calls { shaping, script } => calls(files, &source, text.as_slice(), shaping, script),
    }
}

fn about_text<F: Files>(files: &F, asked: TextOptions) -> Result<String, Failure> {
    match asked.font {
        FontFiles::Label(input) => over(files, read_label(files, input)?, asked),
        FontFiles::Tables(tables) => {
            let bytes = TableBytes::read(files, tables)?;
            over(files, bytes.font()?, asked)
        }
    }
}

// What a call of the program prints.
pub fn answer<F: Files>(files: &F, words: &[String]) -> Result<String, Failure> {
    let heap = files.heap();
    match Command::read(words) {
        Ok(Command::Help) => Ok(String::from_str(heap, HELP)?),
        Ok(Command::Version) => Ok(String::from_str(heap, "mitqorad 0.1.0\n")?),
        Ok(Command::Check(asked)) => check(files, asked),
        Ok(Command::Text(asked)) => about_text(files, asked),
        Err(error) => Err(Failure::usage(heap, error)),
    }
}
