ghost use Rattle.std.specs.Prelude.{◌≡◌, ◌+◌, ◌*◌, ◌≤◌, length, IfOk};
ghost use Rattle.layout.specs.Bytes.{u16_at, u32_at};
ghost use Rattle.layout.specs.Faults.{first_in, in_turn};
ghost use Rattle.layout.specs.Told.{verdict, placed_verdict};
ghost use Rattle.gsub.specs.Subtables.{subtable_faults};
ghost use Rattle.gsub.specs.Tables.{extended_faults, extension_rest, has_mark_set, in_lookup, lookup_fields, lookup_subtable, moved_type, subtable_faults_at, lookup_faults, lookup_faults_at, header_faults, lookup_list_faults};

use crate::forms::OfType;
use crate::seen::Kind;
use crate::subtable::{Decided, is_known, is_movable};
use crate::walk::{Start, Walk};
use layout::bytes::{Field, Width};
use layout::fault::{Place, PlacedFault, Rule, StructureFault, TableName};
use layout::structure::Structure;

// The type and the offset of an extension, behind its format.
fn extension_offset(moved: u16, extension: Structure<'_>) -> Result<u32, StructureFault>
    requires { extension.start + 2 ≤ length extension.table.now }
    ensures answer { verdict result
        ≡ first_in (extension_rest extension.entry.table.now moved extension.entry.start) }
    ensures offset { IfOk result (λ o. (o ≡ u32_at extension.entry.table.now (extension.entry.start + 4)) × (extension.entry.start + 8 ≤ length extension.entry.table.now)) }
{
    let start = extension.start;
    let lookup_type = extension.field::<u16>(start + 2)?;
    let right = is_movable(lookup_type) && lookup_type == moved;
    extension.require(right, Rule::Unknown, start + 2)?;
    let offset = extension.field::<u32>(start + 4)?;
    extension.require(offset != 0, Rule::Unknown, start + 4)?;
    Ok(offset)
}

fn has_mark_set(lookup: Structure<'_>) -> bool
    ensures { result ≡ has_mark_set lookup.entry.table.now lookup.entry.start }
{
    lookup.u16_in(2) & 0x0010 != 0
}

// The fields of a lookup.
fn check_lookup_fields(lookup: Structure<'_>) -> Result<(), StructureFault>
    ensures { verdict result ≡ first_in (lookup_fields lookup.entry.table.now lookup.entry.start) }
{
    let start = lookup.start;
    let lookup_type = lookup.field::<u16>(start)?;
    lookup.require(is_known(lookup_type), Rule::Unknown, start)?;
    lookup.check_fields(start + 2, Width::Two, 2)?;
    let count = u64::from(lookup.u16_in(4));
    let mark_sets = u64::from(has_mark_set(lookup));
    Ok(lookup.check_fields(start + 6, Width::Two, count + mark_sets)?)
}

// The type that an extension lookup moves.
fn moved_type(lookup: Structure<'_>) -> u16
    ensures { result ≡ moved_type lookup.entry.table.now lookup.entry.start }
{
    let first = usize::from(lookup.u16_in(6));
    lookup.u16_in(first + 2)
}

// A lookup by its number and where it starts.
#[derive(Clone, Copy)]
struct NumberedLookup {
    number: u16,
    start: Start,
}

impl NumberedLookup {
    // The place of a subtable, or of the lookup itself.
    fn place(self, subtable: Option<u16>) -> Place
        ensures { result ≡ in_lookup self.number subtable }
    {
        Place {
            table: TableName::Gsub,
            lookup: Some(self.number),
            subtable,
        }
    }
}

impl Walk<'_> {
    // An extension, behind its format, in a lookup that moves a type.
    fn check_extension(&mut self, moved: u16, start: Start) -> Result<(), StructureFault>
        requires { start.byte + 2 ≤ length self.old.table }
        ensures answer { verdict result
            ≡ first_in (extended_faults self.old.table self.old.lookups moved start.byte) }
        ensures same { self.new ≡ self.old }
    {
        let offset = extension_offset(moved, self.structure(start))?;
        // From 32 bits to `usize` there is no `From`.
        let byte = start.byte + offset as usize;
        self.check_subtable(moved, Start { byte })
    }

    // A subtable of the lookup at `lookup`.
    fn check_lookup_subtable(
        &mut self,
        lookup: Start,
        subtable: Start,
    ) -> Result<(), StructureFault>
        ensures answer { verdict result ≡ first_in (lookup_subtable self.old.table self.old.lookups lookup.byte subtable.byte) }
        ensures same { self.new ≡ self.old }
    {
        let lookup = self.structure(lookup);
        let lookup_type = u16::read(lookup.table, lookup.start);
        match Kind::of_type(lookup_type) {
            Some(kind) => self.check_once(&OfType { lookup_type }, kind, subtable),
            None => self.check_by_format(lookup, subtable),
        }
    }

    // The same of a type whose subtables are not remembered: 7, which moves, or none that there is.
    fn check_by_format(
        &mut self,
        lookup: Structure<'_>,
        subtable: Start,
    ) -> Result<(), StructureFault>
        requires { lookup.table.now ≡ self.old.table }
        ensures answer { verdict result ≡ first_in (lookup_subtable self.old.table self.old.lookups lookup.entry.start subtable.byte) }
        ensures same { self.new ≡ self.old }
    {
        let lookup_type = u16::read(lookup.table, lookup.start);
        let structure = self.structure(subtable);
        let format = structure.field::<u16>(subtable.byte)?;
        match Decided::of(
            lookup_type,
            format,
            false,
            &structure.table[subtable.byte..],
        ) {
            Some(Decided::Own(own)) => self.check_form(own, subtable),
            Some(Decided::Extension) => self.check_extension(moved_type(lookup), subtable),
            None => Err(structure.broken(Rule::Unknown, subtable.byte)),
        }
    }

    // Subtable number j of a lookup.
    fn check_subtable_at(&mut self, lookup: NumberedLookup, j: u16) -> Result<(), PlacedFault>
        ensures answer { placed_verdict result ≡ first_in (subtable_faults_at self.old.table self.old.lookups lookup.number lookup.start.byte j (lookup.start.byte + 6 + 2 * j)) }
        ensures same { self.new ≡ self.old }
    {
        let at = lookup.start.byte + 6 + 2 * usize::from(j);
        let subtable = lookup.place(None).hold(self.follow(lookup.start, at))?;
        let answer = self.check_lookup_subtable(lookup.start, subtable);
        lookup.place(Some(j)).hold(answer)
    }

    // Its subtables, in order.
    fn check_subtables(&mut self, lookup: NumberedLookup, count: u16) -> Result<(), PlacedFault>
        ensures answer { placed_verdict result ≡ first_in (in_turn (subtable_faults_at self.old.table self.old.lookups lookup.number lookup.start.byte) 2 0 (lookup.start.byte + 6) count) }
        ensures same { self.new ≡ self.old }
    {
        for j in 0..count {
            self.check_subtable_at(lookup, j)?;
        }
        Ok(())
    }

    // A lookup, unless it was found without faults before. It is no target of `check_once`, since its faults have places.
    fn check_lookup(&mut self, lookup: NumberedLookup) -> Result<(), PlacedFault>
        ensures answer { placed_verdict result ≡ first_in (lookup_faults self.old.table self.old.lookups lookup.number lookup.start.byte) }
        ensures same { self.new ≡ self.old }
    {
        if self.is_remembered(Kind::Lookup, lookup.start) {
            return Ok(());
        }
        let structure = self.structure(lookup.start);
        lookup.place(None).hold(check_lookup_fields(structure))?;
        self.check_subtables(lookup, structure.u16_in(4))?;
        self.remember(Kind::Lookup, lookup.start);
        Ok(())
    }

    // Lookup number k of the list at `list`.
    fn check_lookup_at(&mut self, k: u16, list: Start) -> Result<(), PlacedFault>
        ensures answer { placed_verdict result ≡ first_in (lookup_faults_at self.old.table self.old.lookups list.byte k (list.byte + 2 + 2 * k)) }
        ensures same { self.new ≡ self.old }
    {
        let at = list.byte + 2 + 2 * usize::from(k);
        let start = Place::of(TableName::Gsub).hold(self.follow(list, at))?;
        self.check_lookup(NumberedLookup { number: k, start })
    }

    // All lookups of the list, in order.
    pub(crate) fn check_lookups(&mut self, list: Start) -> Result<(), PlacedFault>
        ensures { placed_verdict result ≡ first_in (in_turn (lookup_faults_at self.old.table self.old.lookups list.byte) 2 0 (list.byte + 2) self.old.lookups) }
    {
        for k in 0..self.lookups() {
            self.check_lookup_at(k, list)?;
        }
        Ok(())
    }
}

// The header. Answers where the lookup list starts.
pub(crate) fn check_header(table: &[u8]) -> Result<u16, StructureFault>
    ensures answer { verdict result ≡ first_in (header_faults table.now) }
    ensures list { IfOk result (λ s. s ≡ u16_at table.now 8) }
{
    let header = Structure { table, start: 0 };
    let major = header.field::<u16>(0)?;
    header.require(major == 1, Rule::Unknown, 0)?;
    let minor = header.field::<u16>(2)?;
    header.require(minor <= 1, Rule::Unknown, 2)?;
    header.check_fields(4, Width::Two, 3)?;
    let list = header.u16_in(8);
    header.require(list != 0, Rule::Unknown, 8)?;
    Ok(list)
}

// The lookup list's own fields. Answers how many lookups there are.
pub(crate) fn lookup_count(list: Structure<'_>) -> Result<u16, StructureFault>
    ensures answer { verdict result ≡ first_in (lookup_list_faults list.entry.table.now list.entry.start) }
    ensures count { IfOk result (λ n. n ≡ u16_at list.entry.table.now list.entry.start) }
{
    Ok(list.counted(list.start, Width::Two)?)
}
