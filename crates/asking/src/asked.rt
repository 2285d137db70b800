use crate::font_files::FontFiles;
use crate::input::Input;

// What a call asks for.
#[derive(Clone, Copy)]
pub enum Command<'a> {
    Help,
    Version,
    Check(CheckOptions<'a>),
    Text(TextOptions<'a>),
}

// What `mitqorad check` is asked for.
#[derive(Clone, Copy)]
pub struct CheckOptions<'a> {
    pub gsub: Input<'a>,
    pub gdef: Option<Input<'a>>,
}

// What is asked about a text over a font.
#[derive(Clone, Copy)]
pub struct TextOptions<'a> {
    pub font: FontFiles<'a>,
    pub stand_in: Option<Input<'a>>,
    pub text: Text<'a>,
    pub task: Task<'a>,
}

// A text: UTF-8, or character numbers, one a line.
#[derive(Clone, Copy)]
pub enum Text<'a> {
    Utf8(Input<'a>),
    Codes(Input<'a>),
}

#[derive(Clone, Copy)]
pub enum Task<'a> {
    Glyphs,
    Shape(ShapeOptions<'a>),
    Lines {
        shaping: ShapeOptions<'a>,
        breaks: &'a str,
    },
    Calls {
        shaping: ShapeOptions<'a>,
        script: Input<'a>,
    },
}

// What a text is shaped with, besides the font.
#[derive(Clone, Copy)]
pub struct ShapeOptions<'a> {
    pub gsub: Input<'a>,
    pub plan: &'a str,
    pub limit: u32,
    pub room: u32,
}
