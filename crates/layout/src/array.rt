ghost use Rattle.layout.specs.Ranges.{Inside, Rises, ranges_of};
ghost use Rattle.layout.specs.Rising.{rises_prop};

use crate::structure::Structure;

// How an array writes its ranges.
#[derive(Clone, Copy)]
pub enum Kind {
    // A glyph each: a range of one, whose value is its number in the array.
    Glyphs,
    // First, last and value, 16 bits each.
    Records,
    // The same, 32 bits each.
    Groups,
}

// What is asked of an entry's third field.
#[derive(Clone, Copy)]
pub enum Third {
    Any,
    // It counts the glyphs in the entries before.
    StartIndex,
    // It is the first of the range's glyphs, and the last is at most 65,535.
    GlyphsTo65535,
}

#[derive(Clone, Copy)]
pub struct Range {
    pub first: u32,
    pub last: u32,
    pub value: u32,
}

// An array of ranges in a structure, from a byte on: a place and not a slice, since faults are told by their bytes.
#[derive(Clone, Copy)]
pub struct RangeArray<'a> {
    pub structure: Structure<'a>,
    pub kind: Kind,
    pub at: usize,
    pub count: u32,
}

// One that lies in its table, so that each entry can be read.
#[derive(Clone, Copy)]
pub struct Laid<'a> {
    pub array: RangeArray<'a>,
    ghost inside: { Inside array },
}

// One whose ranges also rise, so that it can be searched.
#[derive(Clone, Copy)]
pub struct Rising<'a> {
    pub laid: Laid<'a>,
    ghost rises: { Rises 0 (ranges_of laid.array) } by { rises_prop 0 (ranges_of laid.array) },
}
