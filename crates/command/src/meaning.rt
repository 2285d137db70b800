// The program's own words for refusals and faults; what the library prints of them are numbers.
use font::refusal::{LabelField, Refusal as SourceRefusal};
use layout::fault::{Rule, StructureFault, TableFault};
use paragraph::refusal::Refusal;

// What a label file's field should have been.
fn field_meaning(field: LabelField) -> &'static str {
    match field {
        LabelField::Character => "not a character from 0 to 1114111 and a tab, or a 257th row",
        LabelField::Glyph => "not a glyph from 0 to 65535, above the last row's, and a tab",
        LabelField::Class => "not a class from 0 to 4 and a tab",
        LabelField::MarkClass => "not a mark class from 0 to 65535 and a tab",
        LabelField::Advance => "not an advance from 0 to 65535 and a line feed",
    }
}

pub fn source_meaning(refusal: &SourceRefusal) -> &'static str {
    match refusal {
        SourceRefusal::RunTooLong => "more than 65535 characters",
        SourceRefusal::Label { line: _, field } => field_meaning(*field),
        SourceRefusal::TooManyPairs => "more than 32 stand-in pairs",
    }
}

pub fn refusal_meaning(refusal: Refusal) -> &'static str {
    match refusal {
        Refusal::Plan =>
            "the plan has more than 64 entries, does not rise, names a missing lookup, or has an alternate value of 0",
        Refusal::Size => "a text or room over 65535, or a hit limit over 1000000",
        Refusal::HitLimit => "hit limit spent",
        Refusal::Room => "the glyphs do not fit the room",
        Refusal::Ends => "no such line: it is empty or ends past the text",
        Refusal::WrongSlip => "not a slip of this paragraph",
        Refusal::SlipsOwed => "slips are owed",
    }
}

// What a structure's rule asks, where it is broken.
fn rule_meaning(rule: Rule) -> &'static str {
    match rule {
        Rule::Unknown =>
            "unknown version, format or type, or an offset of 0 where a structure must be",
        Rule::Order => "entries do not rise, a range ends before it begins, or a wrong start index",
        Rule::Bounds => "a count, length or glyph number beyond its bounds",
        Rule::Missing => "no such lookup",
    }
}

pub fn fault_meaning(fault: &TableFault) -> &'static str {
    match fault {
        TableFault::TooLong(_) => rule_meaning(Rule::Bounds),
        TableFault::Structure(placed) => match placed.fault {
            StructureFault::PastEnd(_) => "the structure ends past its table",
            StructureFault::Broken {
                rule,
                start: _,
                at: _,
            } => rule_meaning(rule),
        },
    }
}
