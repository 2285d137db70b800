ghost use Rattle.std.specs.Prelude.{bit_and, false};

use crate::calls::{Answer, Call, Given, Memory};
use crate::perform::perform;
use crate::refusal::Refusal;
use crate::slip::Slip;
use font::glyph_class::GlyphClass;
use font::source::FontSource;
use gsub::table::Gsub;
use model::{Entry, Glyph};
use shaping::shape::Inputs;
use std::alloc::Global;
use std::process::Abort;
use std::test::Fail;

// A character's glyph is its number: f = 1, i = 2, the ligature fi = 4, x = 5.
#[derive(Clone, Copy)]
struct Letters;

impl FontSource for Letters {
    ghost means = { λ _. record { glyph = λ c. bit_and c 65535; class = λ g. 0; mark_class = λ g. 0; in_mark_set = λ k g. false } };

    fn glyph(&self, character: u32) -> u16 {
        (character & 0xffff) as u16
    }

    fn class(&self, _glyph: u16) -> Option<GlyphClass> {
        None
    }

    fn mark_class(&self, _glyph: u16) -> u16 {
        0
    }

    fn in_mark_set(&self, _set: u16, _glyph: u16) -> bool {
        false
    }
}

// f i becomes fi.
const LIGATURE: [u16; 23] = [
    1, 0, 0, 0, 10, 1, 4, 4, 0, 1, 8, 1, 8, 1, 14, 1, 1, 1, 1, 4, 4, 2, 2,
];

// Before i stands f: then i becomes x, by a record that runs lookup 1.
const AFTER_F: [u16; 37] = [
    1, 0, 0, 0, 10, 2, 6, 44, 6, 0, 1, 8, 3, 1, 18, 1, 24, 0, 1, 0, 1, 1, 1, 1, 1, 1, 2, 1, 0, 1,
    8, 1, 6, 3, 1, 1, 2,
];

// The bytes of a table, by its fields.
fn bytes(heap: Global, fields: &[u16]) -> Result<Vec<u8>, Fail> {
    let mut table = Vec::new(heap);
    for field in fields {
        for byte in field.to_be_bytes() {
            table.push(byte)?;
        }
    }
    Ok(table)
}

// Memory for so many glyphs and marks, all 9.
fn memory(heap: Global, glyphs: usize, marks: usize) -> Result<Memory, Fail> {
    let nine = Glyph {
        glyph: 9,
        cluster: 9,
    };
    Ok(Memory {
        run: vec![in heap; nine; glyphs]?,
        marks: vec![in heap; 9; marks]?,
    })
}

fn check_copies(rt: &impl Abort, copies: &Memory, glyphs: &[(u16, u32)], marks: &[u8]) {
    assert_eq!(rt; copies.run.len(), glyphs.len());
    for (record, expected) in copies.run.iter().zip(glyphs) {
        assert_eq!(rt; (record.glyph, record.cluster), *expected);
    }
    assert_eq!(rt; copies.marks.as_slice(), marks);
}

fn check_empty(rt: &impl Abort, place: Option<Slip>) {
    if let Some(slip) = place {
        slip.spend();
        panic!(rt; "a slip lies in the hand");
    }
}

// Each shape with inputs of its own.
fn list<'a>(
    heap: Global,
    first: Given<'a, Letters>,
    second: Given<'a, Letters>,
) -> Result<Vec<Call<Given<'a, Letters>>>, Fail> {
    let mut calls = Vec::new(heap);
    calls.push(Call::Shape(first))?;
    calls.push(Call::Line { a: 0, b: 1 })?;
    calls.push(Call::Pay { slip: 1 })?;
    calls.push(Call::Pay { slip: 2 })?;
    calls.push(Call::Clear)?;
    calls.push(Call::Shape(second))?;
    calls.push(Call::Line { a: 0, b: 1 })?;
    calls.push(Call::Shape(first))?;
    calls.push(Call::Line { a: 0, b: 2 })?;
    Ok(calls)
}

// Two shapes with inputs of their own, a slip that is not the paragraph's, one that is paid, one
// that is waived at the end, and a line for whose slip no place is left.
#[test]
fn a_list_of_calls(rt: HostRuntime) -> Result<(), Fail> {
    let heap = rt.alloc();
    let (ligature, after_f) = (bytes(heap, &LIGATURE)?, bytes(heap, &AFTER_F)?);
    let (Ok(joins), Ok(records)) = (
        Gsub::checked(heap, ligature.as_slice()),
        Gsub::checked(heap, after_f.as_slice()),
    ) else {
        panic!(&rt; "a table has a fault");
    };
    let plan = [Entry {
        lookup: 0,
        alternate: 1,
    }];
    let first = Given {
        inputs: Inputs {
            source: &Letters,
            table: joins,
            plan: &plan,
            limit: 10,
        },
        text: &[1, 2, 5],
    };
    let second = Given {
        inputs: Inputs {
            source: &Letters,
            table: records,
            plan: &plan,
            limit: 2,
        },
        text: &[1, 2],
    };
    let calls = list(heap, first, second)?;
    let mut answers = [Answer::Cleared; 10];
    let (mut lent, mut own, mut copies) = (
        memory(heap, 4, 4)?,
        memory(heap, 4, 4)?,
        memory(heap, 6, 5)?,
    );
    let foreign = Slip {
        number: 9,
        first: 0,
        last: 1,
    };
    let mut hand = [Some(foreign), None, None];
    let waived = perform(
        7,
        calls.as_slice(),
        &mut answers,
        &mut hand,
        &mut lent,
        &mut own,
        &mut copies,
    );
    let [not_its_own, paid, waived_last] = hand;
    let Some(foreign) = not_its_own else {
        panic!(&rt; "a slip is gone");
    };
    foreign.spend();
    check_empty(&rt, paid);
    check_empty(&rt, waived_last);
    assert_eq!(rt; waived, 1);
    let expected = [
        Answer::Shaped {
            glyphs: 2,
            marks: 3,
            hits: 1,
        },
        Answer::Owed { slip: 2 },
        Answer::Refused(Refusal::WrongSlip),
        Answer::Paid {
            glyphs: 1,
            marks: 1,
            hits: 0,
        },
        Answer::Cleared,
        Answer::Shaped {
            glyphs: 2,
            marks: 2,
            hits: 2,
        },
        Answer::Owed { slip: 3 },
        Answer::Unknown,
        Answer::NoPlace,
        // There is no call for the last place.
        Answer::Cleared,
    ];
    assert_eq!(rt; answers, expected);
    // fi x, f, and f x; the marks are cut where the memory ends, and the run's last record stays.
    check_copies(
        &rt,
        &copies,
        &[(4, 0), (5, 2), (1, 0), (1, 0), (5, 1), (9, 9)],
        &[0, 2, 0, 0, 0],
    );
    Ok(())
}
