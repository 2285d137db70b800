use std::fmt;

// Where a call's bytes come from.
#[derive(Clone, Copy)]
pub enum Input<'a> {
    StandardInput,
    File(&'a str),
}

// Among the words of a call `-` stands for standard input.
impl<'a> From<&'a str> for Input<'a> {
    fn from(word: &'a str) -> Input<'a> {
        match word {
            "-" => Input::StandardInput,
            path => Input::File(path),
        }
    }
}

impl fmt::Display for Input<'_> {
    fn fmt<W: fmt::Write>(&self, f: &mut fmt::Formatter<W>) -> fmt::Result {
        match self {
            Input::StandardInput => write!(f, "standard input"),
            Input::File(path) => write!(f, "{path}"),
        }
    }
}
