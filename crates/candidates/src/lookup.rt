ghost use Rattle.std.specs.Prelude.{◌≤◌};
ghost use Rattle.candidates.specs.Placed.{Placed};

use gsub::table::Gsub;

// A lookup of a table, by its number, its place and its fields; one that the table does not have has no subtables. An extension has the type of what it moves.
#[derive(Clone, Copy)]
pub struct Lookup<'a> {
    pub(crate) gsub: Gsub<'a>,
    pub(crate) number: u16,
    pub(crate) start: usize,
    pub(crate) lookup_type: u16,
    pub(crate) subtables: u16,
    pub(crate) flag: u16,
    pub(crate) mark_set: u16,
    ghost near: { start ≤ 131070 },
    ghost placed: { Placed gsub.table.now number start lookup_type subtables },
}
