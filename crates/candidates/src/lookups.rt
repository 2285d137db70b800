// Lookups, and what their subtables list.
ghost use Rattle.std.specs.Prelude.{◌≡◌, ◌<◌, ◌≤◌, drop, IfSome};
ghost use Rattle.layout.specs.Bytes.{u16_at};
ghost use Rattle.gsub.specs.Candidates.{subtable_candidates};
ghost use Rattle.gsub.specs.Forms.{form_of, own_form, part_is};
ghost use Rattle.gsub.specs.Meaning.{gsub_means, no_lookup, subtable_at, type_at};
ghost use Rattle.candidates.specs.LookupOf.{lookup_of, part_of};
ghost use Rattle.candidates.specs.Views.{listed};

use crate::forms::list;
use crate::listed::Listed;
use crate::lookup::Lookup;
use crate::places::{part_from, u16_at};
use gsub::subtable::{Decided, Subtable, is_backward, is_extension};
use gsub::table::Gsub;
use layout::bytes::Field;

// The type of the lookup at a byte; an extension's is that of what it moves.
fn type_at(table: &[u8], start: usize) -> u16
    requires { start ≤ 131070 }
    ensures { result ≡ type_at table.now start }
{
    let own = u16_at(table, start);
    if is_extension(own) {
        let first = usize::from(u16_at(table, start + 6));
        u16_at(table, start + first + 2)
    } else {
        own
    }
}

// The part of a subtable of the lookup at a byte, by its offset.
fn subtable_part(table: &[u8], start: usize, offset: u16) -> &[u8]
    requires { start ≤ 131070 }
    ensures { result.now ≡ drop (subtable_at table.now start offset) table.now }
{
    let subtable = start + usize::from(offset);
    if is_extension(u16_at(table, start)) {
        // From 32 bits to `usize` there is no `From`.
        let moved = u32::read(table, subtable + 4) as usize;
        part_from(table, subtable + moved)
    } else {
        part_from(table, subtable)
    }
}

impl<'a> Lookup<'a> {
    // The lookup with a number.
    pub fn of(gsub: Gsub<'a>, number: u16) -> Lookup<'a>
        ensures { lookup_of result ≡ gsub_means gsub.entry.table.now number }
    {
        if number >= gsub.lookup_count() {
            return Lookup::missing(gsub);
        }
        let table = gsub.table;
        let list = usize::from(u16_at(table, 8));
        let offset = u16_at(table, list + 2 + 2 * usize::from(number));
        let start = list + usize::from(offset);
        let subtables = u16_at(table, start + 4);
        Lookup {
            gsub,
            number,
            start,
            lookup_type: type_at(table, start),
            subtables,
            flag: u16_at(table, start + 2),
            mark_set: u16_at(table, start + 6 + 2 * usize::from(subtables)),
        }
    }

    // What a number stands for that no lookup has.
    fn missing(gsub: Gsub<'a>) -> Lookup<'a>
        ensures { lookup_of result ≡ no_lookup }
    {
        Lookup {
            gsub,
            number: 0,
            start: 0,
            lookup_type: 0,
            subtables: 0,
            flag: 0,
            mark_set: 0,
        }
    }

    // Whether it goes from the last glyph to the first.
    pub fn is_backward(&self) -> bool
        ensures { result ≡ (lookup_of self.now).backward }
    {
        is_backward(self.lookup_type)
    }

    // Subtable number j; none where its type has no such format.
    fn subtable(&self, j: u16) -> Option<Subtable<'a>>
        ensures form { own_form result
            ≡ form_of self.now.lookup_type (u16_at (part_of self.now j) 0) }
        ensures part { IfSome result (λ subtable. part_is subtable ≡ part_of self.now j) }
    {
        let table = self.gsub.table;
        let offset = u16_at(table, self.start + 6 + 2 * usize::from(j));
        let part = subtable_part(table, self.start, offset);
        match Decided::of(self.lookup_type, u16_at(part, 0), true, part)? {
            Decided::Own(subtable) => Some(subtable),
            Decided::Extension => None,
        }
    }

    // What it lists for a glyph.
    pub(crate) fn listed(&self, j: u16, alternate: u16, glyph: u16) -> Option<Listed<'a>>
        requires { j < self.now.subtables }
        ensures { listed result ≡ subtable_candidates (part_of self.now j)
            (type_at self.now.gsub.table.now self.now.start) alternate glyph }
    {
        let subtable = self.subtable(j)?;
        list(subtable, alternate, glyph)
    }
}
