// What the entries of an array ask of a glyph.
#[derive(Clone, Copy)]
pub(crate) enum Asks {
    // That it is the glyph of the entry.
    Glyph,
    // That it has the class of the entry, by the class definition at an offset.
    Class { offset: u16 },
    // That it is in the coverage at the entry's offset.
    Coverage,
}
