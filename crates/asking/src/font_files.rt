use crate::input::Input;
use crate::usage::UsageError;
use parsing::number::short_of;

// The files of a font.
#[derive(Clone, Copy)]
pub enum FontFiles<'a> {
    Label(Input<'a>),
    Tables(TableFiles<'a>),
}

// The files of a font's tables.
#[derive(Clone, Copy)]
pub struct TableFiles<'a> {
    pub cmap: Input<'a>,
    pub hmtx: Input<'a>,
    // How many metrics hmtx has.
    pub metrics: u16,
    pub gdef: Option<Input<'a>>,
}

// The options of a font that a call gives, each with its value.
#[derive(Clone, Copy, Default)]
pub struct FontOptions<'a> {
    pub label: Option<Input<'a>>,
    pub cmap: Option<Input<'a>>,
    pub hmtx: Option<Input<'a>>,
    pub metrics: Option<&'a str>,
    pub gdef: Option<Input<'a>>,
}

impl<'a> FontOptions<'a> {
    // The one font that the options of a command name.
    pub fn files(&self, command: &'static str) -> Result<FontFiles<'a>, UsageError<'a>> {
        match (self.label, self.cmap) {
            (Some(label), None) => self.label_file(label),
            (None, Some(cmap)) => self.table_files(cmap),
            (Some(_), Some(_)) => Err(UsageError::TwoFonts),
            (None, None) => Err(UsageError::Needs(command, "--label FILE")),
        }
    }

    // An option of those given that no label font takes.
    fn beside_label(&self) -> Option<&'static str> {
        if self.gdef.is_some() {
            Some("--gdef")
        } else if self.hmtx.is_some() {
            Some("--hmtx")
        } else if self.metrics.is_some() {
            Some("--metrics")
        } else {
            None
        }
    }

    fn label_file(&self, label: Input<'a>) -> Result<FontFiles<'a>, UsageError<'a>> {
        match self.beside_label() {
            Some(option) => Err(UsageError::BesideLabel(option)),
            None => Ok(FontFiles::Label(label)),
        }
    }

    fn table_files(&self, cmap: Input<'a>) -> Result<FontFiles<'a>, UsageError<'a>> {
        let hmtx = self.hmtx.ok_or(UsageError::NoHmtx)?;
        let metrics = self.metrics.ok_or(UsageError::NoMetrics)?;
        Ok(FontFiles::Tables(TableFiles {
            cmap,
            hmtx,
            metrics: short_of(metrics).ok_or(UsageError::BadMetrics(metrics))?,
            gdef: self.gdef,
        }))
    }
}
