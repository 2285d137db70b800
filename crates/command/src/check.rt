use crate::content::bytes;
use crate::failure::Failure;
use crate::files::Files;
use asking::asked::CheckOptions;
use gsub::table::Gsub;
use table_font::table::Gdef;

// That the tables are accepted, or the first fault.
pub fn check<F: Files>(files: &F, asked: CheckOptions) -> Result<String, Failure> {
    let table = bytes(files, asked.gsub)?;
    let gsub = Gsub::checked(files.heap(), table.as_slice())?;
    if let Some(input) = asked.gdef {
        let gdef = bytes(files, input)?;
        Gdef::read(gdef.as_slice())?;
    }
    let lookups = gsub.lookup_count();
    let subtables = gsub.subtables();
    Ok(format!(in files.heap(); "accepted\nlookups: {lookups}\nsubtables: {subtables}\n")?)
}
