ghost use Rattle.std.specs.Prelude.{◌≡◌, ◌+◌, ◌*◌, ◌<◌, ◌≤◌, length, IfOk, IfSome, OnOk, slice_index_or, None};
ghost use Rattle.layout.specs.Bytes.{bytes_of};
ghost use Rattle.layout.specs.Faults.{first_in, extent};
ghost use Rattle.layout.specs.Ranges.{counted_faults, counted_ranges, holding, last_of, ranges_of, entry_faults, field_size, field_count, entry_size, range_at, value_bound, third_faults, order_faults, array_faults};
ghost use Rattle.layout.specs.Told.{verdict, byte_verdict};

use crate::array::{Kind, Laid, Range, RangeArray, Rising, Third};
use crate::bytes::{Field, Width};
use crate::fault::{ByteFault, Rule, StructureFault};
use crate::structure::Structure;

impl Kind {
    fn width(self) -> Width
        ensures { bytes_of result ≡ field_size self }
    {
        match self {
            Kind::Glyphs | Kind::Records => Width::Two,
            Kind::Groups => Width::Four,
        }
    }

    // How many fields so many entries have.
    fn fields(self, count: u32) -> u64
        ensures { result ≡ field_count self * count }
    {
        match self {
            Kind::Glyphs => u64::from(count),
            Kind::Records | Kind::Groups => 3 * u64::from(count),
        }
    }

    // The entry at a byte, with its number.
    fn range(self, table: &[u8], at: usize, k: u32) -> Range
        requires { at + entry_size self ≤ length table.now }
        ensures range { result ≡ range_at self table.now at k }
        ensures bound { result.value < value_bound self }
    {
        match self {
            Kind::Glyphs => {
                let glyph = u32::from(u16::read(table, at));
                Range {
                    first: glyph,
                    last: glyph,
                    value: k,
                }
            }
            Kind::Records => Range {
                first: u32::from(u16::read(table, at)),
                last: u32::from(u16::read(table, at + 2)),
                value: u32::from(u16::read(table, at + 4)),
            },
            Kind::Groups => Range {
                first: u32::read(table, at),
                last: u32::read(table, at + 4),
                value: u32::read(table, at + 8),
            },
        }
    }

    // The bytes of one field, and of so many entries.
    fn field_size(self) -> usize
        ensures size { result ≡ field_size self }
        ensures bound { result ≤ 4 }
    {
        match self.width() {
            Width::Two => 2,
            Width::Four => 4,
        }
    }

    // From 32 bits to `usize` there is no `From`.
    fn offset(self, count: u32) -> usize
        ensures size { result ≡ entry_size self * count }
        ensures bound { result ≤ 12 * count }
    {
        match self {
            Kind::Glyphs => 2 * count as usize,
            Kind::Records => 6 * count as usize,
            Kind::Groups => 12 * count as usize,
        }
    }
}

impl<'a> Structure<'a> {
    // The ranges behind its format and their count, where they have no fault.
    pub(crate) fn ranges(&self, kind: Kind) -> Rising<'a>
        requires { (third : Third)
            × (first_in (counted_faults third kind self.now.table.now self.now.start) ≡ None) }
        ensures ranges { ranges_of result.laid.array
            ≡ counted_ranges kind self.now.table.now self.now.start }
        ensures kind { result.laid.array.kind ≡ kind }
    {
        let array = RangeArray {
            structure: *self,
            kind,
            at: self.start.saturating_add(4),
            count: u32::from(self.u16_in(2)),
        };
        Rising {
            laid: Laid { array },
        }
    }

    pub(crate) fn check_ranges(&self, kind: Kind, third: Third) -> Result<(), StructureFault>
        requires { self.now.start + 2 ≤ length self.now.table.now }
        ensures { verdict result ≡ first_in (counted_faults third kind self.now.table.now self.now.start) }
    {
        let count = self.field::<u16>(self.start + 2)?;
        let ranges = RangeArray {
            structure: *self,
            kind,
            at: self.start + 4,
            count: u32::from(count),
        };
        ranges.check(third)
    }
}

impl<'a> RangeArray<'a> {
    // All fields of the array lie in the table; else the first that does not.
    fn laid(&self) -> Result<Laid<'a>, ByteFault>
        ensures answer { byte_verdict result ≡ first_in (extent self.now.structure.table.now self.now.structure.start self.now.at (field_size self.now.kind) (field_count self.now.kind * self.now.count)) }
        ensures array { IfOk result (λ laid. laid.array ≡ self.now) }
    {
        let RangeArray {
            structure,
            kind,
            at,
            count,
        } = *self;
        structure.check_fields(at, kind.width(), kind.fields(count))?;
        Ok(Laid { array: *self })
    }

    // The first fault of the array: its extent, then entry by entry.
    pub fn check(&self, third: Third) -> Result<(), StructureFault>
        ensures { verdict result ≡ first_in (array_faults third self.now.kind self.now.structure.table.now self.now.structure.start self.now.at self.now.count) }
    {
        self.laid()?.check_order(third)
    }
}

impl Laid<'_> {
    // The entry at a byte, with its number.
    fn entry_at(&self, at: usize, k: u32) -> Range
        requires { at + entry_size self.now.array.kind
            ≤ length self.now.array.structure.table.now }
        ensures range { result
            ≡ range_at self.now.array.kind self.now.array.structure.table.now at k }
        ensures bound { result.value < value_bound self.now.array.kind }
    {
        self.array.kind.range(self.array.structure.table, at, k)
    }

    // Entry number k.
    fn entry(&self, k: u32) -> Range
        requires { k < self.now.array.count }
        ensures range { result ≡ slice_index_or (ranges_of self.now.array) k result }
        ensures bound { result.value < value_bound self.now.array.kind }
    {
        self.entry_at(self.array.at + self.array.kind.offset(k), k)
    }

    // The last entry, if there is one.
    pub(crate) fn last(&self) -> Option<Range>
        ensures { result ≡ last_of (ranges_of self.now.array) }
    {
        let last = self.array.count.checked_sub(1)?;
        Some(self.entry(last))
    }

    // All entries, in order.
    fn check_order(&self, third: Third) -> Result<(), StructureFault>
        ensures { verdict result ≡ first_in (order_faults third self.now.array.kind self.now.array.structure.start self.now.array.at 0 0 (ranges_of self.now.array)) }
    {
        let size = self.array.kind.offset(1);
        let mut at = self.array.at;
        let mut low = 0;
        let mut before = 0;
        for k in 0..self.array.count {
            let range = self.entry_at(at, k);
            self.check_entry(third, at, low, before, range)?;
            at += size;
            low = u64::from(range.last) + 1;
            before += u64::from(range.last - range.first) + 1;
        }
        Ok(())
    }

    // One entry: it begins at `low` or above, ends no sooner than it begins, and its third field is as asked.
    fn check_entry(
        &self,
        third: Third,
        at: usize,
        low: u64,
        before: u64,
        range: Range,
    ) -> Result<(), StructureFault>
        requires { at + entry_size self.now.array.kind ≤ length self.now.array.structure.table.now }
        ensures answer { verdict result ≡ first_in (entry_faults third self.now.array.kind self.now.array.structure.start at low before range) }
        ensures ordered { OnOk result ((low ≤ range.first) × (range.first ≤ range.last)) }
    {
        let structure = self.array.structure;
        let size = self.array.kind.field_size();
        structure.require(low <= u64::from(range.first), Rule::Order, at)?;
        structure.require(range.first <= range.last, Rule::Order, at + size)?;
        self.check_third(third, at + 2 * size, before, range)
    }

    // The third field of an entry, by what is asked of it.
    fn check_third(
        &self,
        third: Third,
        at: usize,
        before: u64,
        range: Range,
    ) -> Result<(), StructureFault>
        requires { range.first ≤ range.last }
        ensures { verdict result ≡ first_in (third_faults third self.now.array.structure.start at before range) }
    {
        let structure = self.array.structure;
        let value = u64::from(range.value);
        match third {
            Third::Any => Ok(()),
            Third::StartIndex => structure.require(value == before, Rule::Order, at),
            Third::GlyphsTo65535 => {
                let last = value + u64::from(range.last - range.first);
                structure.require(last <= 65_535, Rule::Bounds, at)
            }
        }
    }
}

impl Rising<'_> {
    // The range that holds x, by halving. The library searches slices of records; these are bytes of three forms.
    pub fn find(&self, x: u32) -> Option<Range>
        ensures range { result ≡ holding x (ranges_of self.now.laid.array) }
        ensures inside { IfSome result (λ range. (range.first ≤ x) × (x ≤ range.last)) }
        ensures bound { IfSome result
            (λ range. range.value < value_bound self.now.laid.array.kind) }
    {
        let mut low = 0;
        let mut high = self.laid.array.count;
        while low < high {
            let middle = low + (high - low) / 2;
            let range = self.laid.entry(middle);
            if x < range.first {
                high = middle;
            } else if range.last < x {
                low = middle + 1;
            } else {
                return Some(range);
            }
        }
        None
    }
}
