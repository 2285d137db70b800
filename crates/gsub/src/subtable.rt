ghost use Rattle.std.specs.Prelude.{◌≡◌, ◌==◌, ◌&&◌, not, nat_le};
ghost use Rattle.gsub.specs.Forms.{HasPart, form_of, formed, moves};
ghost use Rattle.gsub.specs.Tables.{movable};

// A subtable by its type and format, with its own part of the table, from its first byte on. Each case has its part, for what reads candidates; the check needs no more than the form.
#[derive(Clone, Copy)]
pub enum Subtable<'a> {
    Delta { part: &'a [u8] },
    Single { part: &'a [u8] },
    Multiple { part: &'a [u8] },
    Alternate { part: &'a [u8] },
    Ligature { part: &'a [u8] },
    GlyphRules { chain: bool, part: &'a [u8] },
    ClassRules { chain: bool, part: &'a [u8] },
    CoverageRule { chain: bool, part: &'a [u8] },
    Reverse { part: &'a [u8] },
}

// What a type and a format say together.
#[derive(Clone, Copy)]
pub enum Decided<'a> {
    // A subtable of a form. That its part is one of a table without faults is no fact of the type:
    // the check asks for the form of what it has yet to check.
    Own(Subtable<'a>),
    // It only moves a subtable.
    Extension,
}

impl<'a> Decided<'a> {
    // The one decision over type and format, for the check and for shaping. None where a type has no
    // such format. What an extension moved is no extension.
    pub fn of(lookup_type: u16, format: u16, moved: bool, part: &'a [u8]) -> Option<Decided<'a>>
        ensures form { formed result ≡ form_of lookup_type format }
        ensures extension { moves result ≡ (lookup_type == 7 && (format == 1 && not moved)) }
        ensures part { HasPart part.now result }
    {
        let subtable = match (lookup_type, format) {
            (1, 1) => Subtable::Delta { part },
            (1, 2) => Subtable::Single { part },
            (2, 1) => Subtable::Multiple { part },
            (3, 1) => Subtable::Alternate { part },
            (4, 1) => Subtable::Ligature { part },
            (ty @ 5..=6, 1) => Subtable::GlyphRules {
                chain: ty == 6,
                part,
            },
            (ty @ 5..=6, 2) => Subtable::ClassRules {
                chain: ty == 6,
                part,
            },
            (ty @ 5..=6, 3) => Subtable::CoverageRule {
                chain: ty == 6,
                part,
            },
            (7, 1) if !moved => return Some(Decided::Extension),
            (8, 1) => Subtable::Reverse { part },
            _ => return None,
        };
        Some(Decided::Own(subtable))
    }
}

// What is asked of a type alone is asked of its format 1, which each type has.
pub fn is_extension(lookup_type: u16) -> bool
    ensures { result ≡ (lookup_type == 7) }
{
    matches!(
        Decided::of(lookup_type, 1, false, &[]),
        Some(Decided::Extension)
    )
}

// Whether lookups of a type go from the last glyph to the first.
pub fn is_backward(lookup_type: u16) -> bool
    ensures { result ≡ (lookup_type == 8) }
{
    matches!(
        Decided::of(lookup_type, 1, true, &[]),
        Some(Decided::Own(Subtable::Reverse { part: _ }))
    )
}

// The types that there are.
pub(crate) fn is_known(lookup_type: u16) -> bool
    ensures { result ≡ (nat_le 1 lookup_type && nat_le lookup_type 8) }
{
    Decided::of(lookup_type, 1, false, &[]).is_some()
}

// The types that an extension can move.
pub(crate) fn is_movable(lookup_type: u16) -> bool
    ensures { result ≡ movable lookup_type }
{
    Decided::of(lookup_type, 1, true, &[]).is_some()
}
