use std::fmt;

// What is off about the words of a call.
#[derive(Clone, Copy)]
pub enum UsageError<'a> {
    NoCommand,
    UnknownCommand(&'a str),
    UnknownOption(&'a str),
    // What the last option lacks, in a word.
    NoValue(&'static str),
    StandardInputTwice,
    // A command, and what it lacks.
    Needs(&'static str, &'static str),
    FileTooMany(&'a str),
    TwoFonts,
    // An option that no label font takes.
    BesideLabel(&'static str),
    NoHmtx,
    NoMetrics,
    BadMetrics(&'a str),
    // An option that takes a number, and what it was given.
    BadNumber(&'static str, &'a str),
    BadPlan(&'a str),
    BadBreaks(&'a str),
    NotOfCheck(&'a str),
}

impl fmt::Display for UsageError<'_> {
    fn fmt<W: fmt::Write>(&self, f: &mut fmt::Formatter<W>) -> fmt::Result {
        match self {
            UsageError::NoCommand => write!(f, "no command"),
            UsageError::UnknownCommand(word) => write!(f, "unknown command {word}"),
            UsageError::UnknownOption(word) => write!(f, "unknown option {word}"),
            UsageError::NoValue(what) => write!(f, "the last option has no {what}"),
            UsageError::StandardInputTwice => write!(f, "standard input can be one file only"),
            UsageError::Needs(command, what) => write!(f, "{command} needs {what}"),
            UsageError::FileTooMany(word) => write!(f, "more than one text: {word}"),
            UsageError::TwoFonts => write!(f, "a font is --label or --cmap, and not both"),
            UsageError::BesideLabel(option) => write!(
                f,
                "--label is a whole font, and takes no {option}"
            ),
            UsageError::NoHmtx => write!(f, "--cmap needs --hmtx FILE"),
            UsageError::NoMetrics => write!(f, "--cmap needs --metrics N"),
            UsageError::BadMetrics(word) => write!(
                f,
                "--metrics takes a number from 0 to 65535, and not {word}"
            ),
            UsageError::BadNumber(option, word) => write!(
                f,
                "{option} takes a number, and not {word}"
            ),
            UsageError::BadPlan(word) => write!(
                f,
                "--plan takes lookup numbers parted by commas, each alone or with =VALUE, and not {word}"
            ),
            UsageError::BadBreaks(word) => write!(
                f,
                "--breaks takes places parted by commas, and not {word}"
            ),
            UsageError::NotOfCheck(word) => write!(
                f,
                "check takes tables by --gsub and --gdef, and not {word}"
            ),
        }
    }
}
