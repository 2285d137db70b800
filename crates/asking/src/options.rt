use crate::asked::{CheckOptions, Command, ShapeOptions, Task, Text, TextOptions};
use crate::font_files::FontOptions;
use crate::input::Input;
use crate::usage::UsageError;
use parsing::number::number_of;

impl<'a> Command<'a> {
    pub fn read(words: &'a [String]) -> Result<Command<'a>, UsageError<'a>> {
        if asks_help(words) {
            return Ok(Command::Help);
        }
        match words {
            [command, rest @ ..] => match command.as_str() {
                "--version" | "-V" => Ok(Command::Version),
                "check" => Ok(Command::Check(CheckOptions::read(rest)?)),
                "glyphs" => Ok(Command::Text(Given::read(Name::Glyphs, rest)?.asked()?)),
                "shape" => Ok(Command::Text(Given::read(Name::Shape, rest)?.asked()?)),
                "lines" => Ok(Command::Text(Given::read(Name::Lines, rest)?.asked()?)),
                "calls" => Ok(Command::Text(Given::read(Name::Calls, rest)?.asked()?)),
                other => Err(UsageError::UnknownCommand(other)),
            },
            [] => Err(UsageError::NoCommand),
        }
    }
}

fn asks_help(words: &[String]) -> bool {
    words
        .iter()
        .any(|word| matches!(word.as_str(), "--help" | "-h"))
}

// Standard input can serve as one file only.
fn wants_stdin_twice(inputs: &[Option<Input>]) -> bool {
    inputs
        .iter()
        .filter(|input| matches!(input, Some(Input::StandardInput)))
        .count()
        > 1
}

// The value of an option is the next word.
fn value<'a>(next: Option<&'a String>, what: &'static str) -> Result<&'a str, UsageError<'a>> {
    Ok(next.ok_or(UsageError::NoValue(what))?.as_str())
}

fn input<'a>(next: Option<&'a String>, what: &'static str) -> Result<Input<'a>, UsageError<'a>> {
    Ok(Input::from(value(next, what)?))
}

fn number<'a>(
    given: Option<&'a str>,
    option: &'static str,
    otherwise: u32,
) -> Result<u32, UsageError<'a>> {
    match given {
        Some(word) => number_of(word).ok_or(UsageError::BadNumber(option, word)),
        None => Ok(otherwise),
    }
}

impl<'a> CheckOptions<'a> {
    fn read(words: &'a [String]) -> Result<CheckOptions<'a>, UsageError<'a>> {
        let mut gsub = None;
        let mut gdef = None;
        let mut words = words.iter();
        while let Some(word) = words.next() {
            match word.as_str() {
                "--gsub" => gsub = Some(input(words.next(), "value")?),
                "--gdef" => gdef = Some(input(words.next(), "value")?),
                word => return Err(UsageError::NotOfCheck(word)),
            }
        }
        if wants_stdin_twice(&[gsub, gdef]) {
            return Err(UsageError::StandardInputTwice);
        }
        Ok(CheckOptions {
            gsub: gsub.ok_or(UsageError::Needs("check", "--gsub FILE"))?,
            gdef,
        })
    }
}

// A command about a text over a font.
#[derive(Clone, Copy)]
enum Name {
    Glyphs,
    Shape,
    Lines,
    Calls,
}

impl Name {
    fn word(self) -> &'static str {
        match self {
            Name::Glyphs => "glyphs",
            Name::Shape => "shape",
            Name::Lines => "lines",
            Name::Calls => "calls",
        }
    }

    fn shapes(self) -> bool {
        !matches!(self, Name::Glyphs)
    }
}

// What the words of such a command give.
#[derive(Clone, Copy)]
struct Given<'a> {
    name: Name,
    label: Option<Input<'a>>,
    cmap: Option<Input<'a>>,
    hmtx: Option<Input<'a>>,
    metrics: Option<&'a str>,
    gdef: Option<Input<'a>>,
    stand_in: Option<Input<'a>>,
    gsub: Option<Input<'a>>,
    plan: Option<&'a str>,
    limit: Option<&'a str>,
    room: Option<&'a str>,
    breaks: Option<&'a str>,
    codes: bool,
    text: Option<Input<'a>>,
    script: Option<Input<'a>>,
}

impl<'a> Given<'a> {
    fn new(name: Name) -> Given<'a> {
        Given {
            name,
            label: None,
            cmap: None,
            hmtx: None,
            metrics: None,
            gdef: None,
            stand_in: None,
            gsub: None,
            plan: None,
            limit: None,
            room: None,
            breaks: None,
            codes: false,
            text: None,
            script: None,
        }
    }

    fn read(name: Name, words: &'a [String]) -> Result<Given<'a>, UsageError<'a>> {
        let mut given = Given::new(name);
        let mut words = words.iter();
        while let Some(word) = words.next() {
            match word.as_str() {
                "--label" => given.label = Some(input(words.next(), "file")?),
                "--cmap" => given.cmap = Some(input(words.next(), "file")?),
                "--hmtx" => given.hmtx = Some(input(words.next(), "file")?),
                "--metrics" => given.metrics = Some(value(words.next(), "number")?),
                "--gdef" => given.gdef = Some(input(words.next(), "file")?),
                "--stand-in" => given.stand_in = Some(input(words.next(), "file")?),
                "--codes" => given.codes = true,
                "--gsub" if name.shapes() => given.gsub = Some(input(words.next(), "file")?),
                "--plan" if name.shapes() => given.plan = Some(value(words.next(), "plan")?),
                "--limit" if name.shapes() => given.limit = Some(value(words.next(), "number")?),
                "--room" if name.shapes() => given.room = Some(value(words.next(), "number")?),
                "--breaks" if matches!(name, Name::Lines) => {
                    given.breaks = Some(value(words.next(), "places")?)
                }
                word => given.file(word)?,
            }
        }
        if given.wants_stdin_twice() {
            return Err(UsageError::StandardInputTwice);
        }
        Ok(given)
    }

    // A word that is no option: the text, and then the script.
    fn file(&mut self, word: &'a str) -> Result<(), UsageError<'a>> {
        let file = Input::from(word);
        if let Input::File(path) = file {
            if path.starts_with('-') {
                return Err(UsageError::UnknownOption(path));
            }
        }
        if self.text.is_none() {
            self.text = Some(file);
        } else if self.script.is_none() && matches!(self.name, Name::Calls) {
            self.script = Some(file);
        } else {
            return Err(UsageError::FileTooMany(word));
        }
        Ok(())
    }

    fn wants_stdin_twice(&self) -> bool {
        wants_stdin_twice(&[
            self.label,
            self.cmap,
            self.hmtx,
            self.gdef,
            self.stand_in,
            self.gsub,
            self.text,
            self.script,
        ])
    }

    fn needs(&self, what: &'static str) -> UsageError<'a> {
        UsageError::Needs(self.name.word(), what)
    }

    fn asked(&self) -> Result<TextOptions<'a>, UsageError<'a>> {
        let font = FontOptions {
            label: self.label,
            cmap: self.cmap,
            hmtx: self.hmtx,
            metrics: self.metrics,
            gdef: self.gdef,
        };
        let font = font.files(self.name.word())?;
        let text = self.text.ok_or(self.needs("a text"))?;
        Ok(TextOptions {
            font,
            stand_in: self.stand_in,
            text: if self.codes {
                Text::Codes(text)
            } else {
                Text::Utf8(text)
            },
            task: self.task()?,
        })
    }

    fn task(&self) -> Result<Task<'a>, UsageError<'a>> {
        match self.name {
            Name::Glyphs => Ok(Task::Glyphs),
            Name::Shape => Ok(Task::Shape(self.shaping()?)),
            Name::Lines => Ok(Task::Lines {
                shaping: self.shaping()?,
                breaks: self.breaks.unwrap_or(""),
            }),
            Name::Calls => Ok(Task::Calls {
                shaping: self.shaping()?,
                script: self.script.ok_or(self.needs("a script"))?,
            }),
        }
    }

    fn shaping(&self) -> Result<ShapeOptions<'a>, UsageError<'a>> {
        Ok(ShapeOptions {
            gsub: self.gsub.ok_or(self.needs("--gsub FILE"))?,
            plan: self.plan.ok_or(self.needs("--plan LOOKUPS"))?,
            limit: number(self.limit, "--limit", 1_000_000)?,
            room: number(self.room, "--room", 65_535)?,
        })
    }
}
