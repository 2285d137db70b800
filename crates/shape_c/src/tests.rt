use crate::mitqorad_shape;
use model::{Entry, Glyph};

// One lookup: 1 and 2 join into 3.
const LIGATURE: [u8; 46] = [
    0, 1, 0, 0, 0, 0, 0, 0, 0, 10, 0, 1, 0, 4, 0, 4, 0, 0, 0, 1, 0, 8, 0, 1, 0, 8, 0, 1, 0, 14, 0,
    1, 0, 1, 0, 1, 0, 1, 0, 4, 0, 3, 0, 2, 0, 2,
];

// Characters 65 to 67 have glyphs 1 to 3.
const CMAP: [u8; 28] = [
    0, 12, 0, 0, 0, 0, 0, 28, 0, 0, 0, 0, 0, 0, 0, 1, 0, 0, 0, 65, 0, 0, 0, 67, 0, 0, 0, 1,
];

const PLAN: [Entry; 1] = [Entry {
    lookup: 0,
    alternate: 1,
}];

const NINE: Glyph = Glyph {
    glyph: 9,
    cluster: 9,
};

#[test]
fn a_text_and_refusals(rt: HostRuntime) {
    let mut run = [NINE; 4];
    let mut marks = [9; 4];
    let heap = rt.alloc();
    let text = [65, 66, 67];
    let answer = mitqorad_shape(
        heap,
        &LIGATURE,
        &CMAP,
        &[],
        &PLAN,
        10,
        &text,
        &mut run,
        &mut marks,
    );
    assert_eq!(rt; (answer.kind, answer.number), (0, 0));
    assert_eq!(rt; (answer.glyphs, answer.hits), (2, 1));
    assert_eq!(rt; (run[0].glyph, run[0].cluster), (3, 0));
    assert_eq!(rt; (run[1].glyph, run[1].cluster), (3, 2));
    assert_eq!(rt; (run[3].glyph, run[3].cluster), (0, 0));
    assert_eq!(rt; (marks[1], marks[3]), (2, 0));
    let answer = mitqorad_shape(
        heap,
        &LIGATURE,
        &CMAP,
        &[],
        &PLAN,
        1_000_001,
        &text,
        &mut run,
        &mut marks,
    );
    assert_eq!(rt; (answer.kind, answer.number), (2, 6));
    assert_eq!(rt; (run[0].glyph, marks[1]), (3, 2));
    let answer = mitqorad_shape(
        heap,
        &LIGATURE,
        &CMAP,
        &[],
        &PLAN,
        0,
        &text,
        &mut run,
        &mut marks,
    );
    assert_eq!(rt; (answer.kind, answer.number), (2, 7));
    assert_eq!(rt; (run[0].glyph, marks[1]), (0, 0));
}

#[test]
fn faults_of_tables(rt: HostRuntime) {
    let mut run = [NINE; 1];
    let mut marks = [9; 1];
    let heap = rt.alloc();
    let answer = mitqorad_shape(
        heap,
        &LIGATURE[..40],
        &[],
        &[],
        &PLAN,
        10,
        &[65],
        &mut run,
        &mut marks,
    );
    assert_eq!(rt; (answer.kind, answer.number, answer.table), (1, 1, 1));
    assert_eq!(rt; (answer.lookup, answer.subtable), (0, 0));
    assert_eq!(rt; (answer.structure, answer.byte), (40, 40));
    let answer = mitqorad_shape(
        heap,
        &LIGATURE,
        &CMAP,
        &[0, 1],
        &PLAN,
        10,
        &[65],
        &mut run,
        &mut marks,
    );
    assert_eq!(rt; (answer.kind, answer.number, answer.table), (1, 1, 3));
    assert_eq!(rt; (answer.lookup, answer.subtable), (65_535, 65_535));
    assert_eq!(rt; (answer.structure, answer.byte), (0, 2));
    assert_eq!(rt; (run[0].glyph, marks[0]), (9, 9));
}
