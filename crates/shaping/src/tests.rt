ghost use Rattle.std.specs.Prelude.{◌==◌, bit_and, cond, false};

use crate::plan::plan_fits;
use crate::refusal::Refusal;
use crate::shape::Inputs;
use font::glyph_class::GlyphClass;
use font::source::FontSource;
use gsub::table::Gsub;
use model::{Entry, Glyph};
use std::alloc::Global;
use std::process::Abort;
use std::test::Fail;

// A character's glyph is its number; glyph 3 is a mark. f = 1, i = 2, the mark m = 3, the ligature fi = 4, x = 5.
#[derive(Drop)]
struct Letters;

impl FontSource for Letters {
    ghost means = { λ _. record { glyph = λ c. bit_and c 65535; class = λ g. cond (g == 3) 3 0; mark_class = λ g. 0; in_mark_set = λ k g. false } };

    fn glyph(&self, character: u32) -> u16 {
        (character & 0xffff) as u16
    }

    fn class(&self, glyph: u16) -> Option<GlyphClass> {
        if glyph == 3 {
            Some(GlyphClass::Mark)
        } else {
            None
        }
    }

    fn mark_class(&self, _glyph: u16) -> u16 {
        0
    }

    fn in_mark_set(&self, _set: u16, _glyph: u16) -> bool {
        false
    }
}

// The bytes of a table, by its fields.
fn bytes(heap: Global, fields: &[u16]) -> Result<Vec<u8>, Fail> {
    let mut table = Vec::new(heap);
    for field in fields {
        for byte in field.to_be_bytes() {
            table.push(byte)?;
        }
    }
    Ok(table)
}

// What a table's lookup 0 makes of a text: glyphs and clusters, marks, hits.
fn check(
    rt: &impl Abort,
    heap: Global,
    fields: &[u16],
    text: &[u32],
    glyphs: &[(u16, u32)],
    marks: &[u8],
    hits: u32,
) -> Result<(), Fail> {
    let table = bytes(heap, fields)?;
    let Ok(table) = Gsub::checked(heap, table.as_slice()) else {
        panic!(rt; "the table has a fault");
    };
    let plan = [Entry {
        lookup: 0,
        alternate: 1,
    }];
    let inputs = Inputs {
        source: &Letters,
        table,
        plan: &plan,
        limit: 10,
    };
    let mut run = [Glyph {
        glyph: 9,
        cluster: 9,
    }; 10];
    let mut row = [9; 10];
    let Ok(laid) = inputs.shape(text, &mut run, &mut row) else {
        panic!(rt; "the text is refused");
    };
    assert_eq!(rt; laid.hits, hits);
    assert_eq!(rt; laid.glyphs, glyphs.len());
    for (record, expected) in run.iter().zip(glyphs) {
        assert_eq!(rt; (record.glyph, record.cluster), *expected);
    }
    for (mark, expected) in row.iter().zip(marks) {
        assert_eq!(rt; mark, expected);
    }
    // Zeros lie behind the result.
    assert_eq!(rt; (run[9].glyph, run[9].cluster, row[9]), (0, 0, 0));
    Ok(())
}

// f i becomes fi, under a flag.
fn ligature(flag: u16) -> [u16; 23] {
    [
        1, 0, 0, 0, 10, 1, 4, 4, flag, 1, 8, 1, 8, 1, 14, 1, 1, 1, 1, 4, 4, 2, 2,
    ]
}

// Before i stands f: then i becomes x, by a record that runs lookup 1.
const AFTER_F: [u16; 37] = [
    1, 0, 0, 0, 10, 2, 6, 44, 6, 0, 1, 8, 3, 1, 18, 1, 24, 0, 1, 0, 1, 1, 1, 1, 1, 1, 2, 1, 0, 1,
    8, 1, 6, 3, 1, 1, 2,
];

// Before i stands f: then no record runs; else i becomes x, by a record.
const EXCEPT_AFTER_F: [u16; 47] = [
    1, 0, 0, 0, 10, 2, 6, 64, 6, 0, 2, 10, 36, 3, 1, 14, 1, 20, 0, 0, 1, 1, 1, 1, 1, 2, 3, 0, 1,
    16, 0, 1, 0, 1, 1, 1, 2, 1, 0, 1, 8, 1, 6, 3, 1, 1, 2,
];

// x becomes x x.
const DOUBLED: [u16; 21] = [
    1, 0, 0, 0, 10, 1, 4, 2, 0, 1, 8, 1, 8, 1, 14, 1, 1, 5, 2, 5, 5,
];

// Backward: i before i becomes x.
const BACKWARD: [u16; 21] = [
    1, 0, 0, 0, 10, 1, 4, 8, 0, 1, 8, 1, 14, 0, 1, 14, 1, 5, 1, 1, 2,
];

// What the definitions say of nine small texts (`further_examples` of `model`), from tables in bytes.
#[test]
fn worked_examples(rt: HostRuntime) -> Result<(), Fail> {
    check(&rt, rt.alloc(), &ligature(0), &[], &[], &[], 0)?;
    check(
        &rt,
        rt.alloc(),
        &ligature(0),
        &[1, 2, 5],
        &[(4, 0), (5, 2)],
        &[0, 2, 0],
        1,
    )?;
    check(
        &rt,
        rt.alloc(),
        &ligature(8),
        &[1, 3, 2],
        &[(4, 0), (3, 0)],
        &[0, 2, 2],
        1,
    )?;
    check(
        &rt,
        rt.alloc(),
        &ligature(0),
        &[1, 2],
        &[(4, 0)],
        &[0, 2],
        1,
    )?;
    check(&rt, rt.alloc(), &ligature(0), &[1], &[(1, 0)], &[0], 0)?;
    check(
        &rt,
        rt.alloc(),
        &AFTER_F,
        &[1, 2],
        &[(1, 0), (5, 1)],
        &[0, 1],
        2,
    )?;
    check(
        &rt,
        rt.alloc(),
        &EXCEPT_AFTER_F,
        &[1, 2],
        &[(1, 0), (2, 1)],
        &[0, 1],
        1,
    )?;
    check(&rt, rt.alloc(), &EXCEPT_AFTER_F, &[2], &[(5, 0)], &[0], 2)?;
    check(&rt, rt.alloc(), &DOUBLED, &[5], &[(5, 0), (5, 0)], &[0], 1)?;
    check(
        &rt,
        rt.alloc(),
        &BACKWARD,
        &[2, 2, 2],
        &[(2, 0), (5, 1), (2, 2)],
        &[0, 0, 1],
        1,
    )?;
    Ok(())
}

// What f i comes to with the lookup that runs a record, or x with the one that doubles it.
fn refused(
    rt: &impl Abort,
    heap: Global,
    fields: &[u16],
    text: &[u32],
    limit: u32,
    lookup: u16,
    run: &mut [Glyph],
    marks: &mut [u8],
) -> Result<u8, Fail> {
    let table = bytes(heap, fields)?;
    let Ok(table) = Gsub::checked(heap, table.as_slice()) else {
        panic!(rt; "the table has a fault");
    };
    let plan = [Entry {
        lookup,
        alternate: 1,
    }];
    let inputs = Inputs {
        source: &Letters,
        table,
        plan: &plan,
        limit,
    };
    match inputs.shape(text, run, marks) {
        Ok(_) => Ok(0),
        Err(refusal) => Ok(refusal.number()),
    }
}

#[test]
fn refusals(rt: HostRuntime) -> Result<(), Fail> {
    let old = Glyph {
        glyph: 9,
        cluster: 9,
    };
    let mut run = [old; 2];
    let mut marks = [9; 2];
    // Sizes, then the plan: nothing changes.
    assert_eq!(rt;
        refused(
            &rt,
            rt.alloc(),
            &AFTER_F,
            &[1, 2],
            1_000_001,
            2,
            &mut run,
            &mut marks
        )?,
        6
    );
    assert_eq!(rt;
        refused(
            &rt,
            rt.alloc(),
            &AFTER_F,
            &[1, 2],
            10,
            0,
            &mut run,
            &mut marks[..1]
        )?,
        6
    );
    assert_eq!(rt;
        refused(
            &rt,
            rt.alloc(),
            &AFTER_F,
            &[1, 2],
            10,
            2,
            &mut run,
            &mut marks
        )?,
        5
    );
    assert_eq!(rt; (run[0].glyph, run[1].cluster, marks), (9, 9, [9, 9]));
    // The hit limit, and the room: all is zero.
    assert_eq!(rt;
        refused(
            &rt,
            rt.alloc(),
            &AFTER_F,
            &[1, 2],
            1,
            0,
            &mut run,
            &mut marks
        )?,
        7
    );
    assert_eq!(rt; (run[0].glyph, run[1].cluster, marks), (0, 0, [0, 0]));
    run = [old; 2];
    assert_eq!(rt;
        refused(
            &rt,
            rt.alloc(),
            &DOUBLED,
            &[5],
            10,
            0,
            &mut run[..1],
            &mut marks
        )?,
        8
    );
    assert_eq!(rt; (run[0].glyph, run[1].glyph), (0, 9));
    assert_eq!(rt;
        refused(
            &rt,
            rt.alloc(),
            &DOUBLED,
            &[5, 5],
            10,
            0,
            &mut run[..1],
            &mut marks
        )?,
        8
    );
    assert_eq!(rt; (run[0].glyph, run[1].glyph), (0, 9));
    let entry = Entry {
        lookup: 0,
        alternate: 1,
    };
    assert!(rt; plan_fits(&[entry], 1));
    assert!(rt; !plan_fits(&[entry, entry], 1));
    Ok(())
}
