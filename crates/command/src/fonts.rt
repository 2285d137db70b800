use crate::content::bytes;
use crate::failure::Failure;
use crate::files::Files;
use asking::font_files::TableFiles;
use asking::input::Input;
use label_font::table::LabelFont;
use table_font::table::TableFont;

pub fn read_label<F: Files>(files: &F, input: Input) -> Result<LabelFont, Failure> {
    let bytes = bytes(files, input)?;
    let mut font = LabelFont::new();
    font.read(bytes.as_slice())?;
    Ok(font)
}

// The bytes of a font's tables, which the font then borrows.
#[derive(Drop)]
pub struct TableBytes {
    cmap: Vec<u8>,
    // Empty where there is no such table, as `TableFont::checked` has it.
    gdef: Vec<u8>,
    hmtx: Vec<u8>,
    metrics: u16,
}

impl TableBytes {
    pub fn read<F: Files>(files: &F, tables: TableFiles) -> Result<TableBytes, Failure> {
        Ok(TableBytes {
            cmap: bytes(files, tables.cmap)?,
            gdef: match tables.gdef {
                Some(input) => bytes(files, input)?,
                None => Vec::new(files.heap()),
            },
            hmtx: bytes(files, tables.hmtx)?,
            metrics: tables.metrics,
        })
    }

    pub fn font(&self) -> Result<TableFont<'_>, Failure> {
        Ok(TableFont::checked(
            self.cmap.as_slice(),
            self.gdef.as_slice(),
            self.hmtx.as_slice(),
            self.metrics,
        )?)
    }
}
