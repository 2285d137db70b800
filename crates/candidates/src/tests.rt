// What is found in two small tables, worked out by hand.
ghost use Rattle.std.specs.Prelude.{◌==◌, cond, false};

use crate::found::{Action, Found};
use crate::lookup::Lookup;
use font::glyph_class::GlyphClass;
use font::source::FontSource;
use gsub::table::Gsub;
use model::Glyph;
use run::Run;
use std::process::Abort;
use std::test::Fail;

// A font in which glyph 3 is a mark and no other glyph has a class.
#[derive(Drop)]
struct OneMark;

impl FontSource for OneMark {
    ghost means = { λ _. record { glyph = λ c. 0; class = λ g. cond (g == 3) 3 0; mark_class = λ g. 0; in_mark_set = λ k g. false } };

    fn glyph(&self, _character: u32) -> u16 {
        0
    }

    fn class(&self, glyph: u16) -> Option<GlyphClass> {
        if glyph == 3 {
            Some(GlyphClass::Mark)
        } else {
            None
        }
    }

    fn mark_class(&self, _glyph: u16) -> u16 {
        0
    }

    fn in_mark_set(&self, _set: u16, _glyph: u16) -> bool {
        false
    }
}

// The table of the examples of `gsub`, in words of 16 bits. Glyphs: f = 1, i = 2, a mark m = 3, the ligature fi = 4, x = 5.
// Lookup 0: x plus 3. 1: f i becomes fi, under flag 8. 2: alternates 6 and 7 of x. 3: x between f and m runs lookup 0. 4: x (class 1) before a glyph of class 2, which is 6. 5: i before i becomes x, backward. 6: an extension: x becomes x x. 7: f i runs lookup 0 at i.
const FIRST: [u16; 148] = [
    1, 0, 0, 0, 10, 8, 18, 38, 70, 98, 140, 186, 214, 252, 1, 0, 1, 8, 1, 6, 3, 1, 1, 5, 4, 8, 1,
    8, 1, 8, 1, 14, 1, 1, 1, 1, 4, 4, 2, 2, 3, 0, 1, 8, 1, 8, 1, 14, 1, 1, 5, 2, 6, 7, 6, 0, 1, 8,
    1, 8, 1, 14, 1, 1, 5, 1, 4, 1, 1, 1, 1, 3, 1, 0, 0, 5, 0, 1, 8, 2, 12, 18, 2, 0, 28, 1, 1, 5,
    1, 5, 2, 1, 2, 1, 4, 2, 0, 2, 8, 0, 1, 8, 1, 14, 0, 1, 14, 1, 5, 1, 1, 2, 7, 16, 1, 10, 6, 1,
    2, 0, 8, 1, 8, 1, 14, 1, 1, 5, 2, 5, 5, 5, 0, 1, 8, 3, 2, 1, 14, 20, 1, 0, 1, 1, 1, 1, 1, 2,
];

// Lookup 0: 0 and 7 minus 1, modulo 65,536; then 5 becomes 50 and 7 becomes 70. 1: 1 2 2 becomes 9, else 1 2 becomes 4. 2: no rules for 1; 5 1 has one record, 5 2 has two. 3, by classes: 5 (class 1) behind 1 (class 3), before 6 (class 2) and then 2 (class 4). 4, by coverages: 5 6 behind 2 1 and before 7. 5: 4 becomes 7, and 5 becomes 8, behind 1 and before 2.
const SECOND: [u16; 176] = [
    1, 0, 0, 0, 10, 6, 14, 56, 98, 154, 238, 296, 1, 0, 2, 10, 24, 1, 6, 65535, 1, 2, 0, 7, 2, 10,
    2, 50, 70, 1, 2, 5, 7, 4, 0, 1, 8, 1, 8, 1, 14, 1, 1, 1, 2, 6, 14, 9, 3, 2, 2, 4, 2, 2, 5, 0,
    1, 8, 1, 10, 2, 0, 18, 1, 2, 1, 5, 2, 6, 16, 2, 1, 1, 1, 0, 2, 2, 2, 0, 0, 1, 0, 6, 0, 1, 8, 2,
    16, 22, 30, 46, 2, 0, 54, 1, 1, 5, 1, 1, 1, 3, 2, 2, 5, 5, 1, 6, 6, 2, 1, 2, 1, 4, 1, 4, 1, 3,
    2, 2, 1, 4, 1, 1, 0, 6, 0, 1, 8, 3, 2, 20, 26, 2, 32, 38, 1, 44, 0, 1, 1, 1, 1, 1, 2, 1, 1, 5,
    1, 1, 6, 1, 1, 7, 8, 0, 1, 8, 1, 18, 1, 26, 1, 32, 2, 7, 8, 1, 2, 4, 5, 1, 1, 1, 1, 1, 2,
];

fn bytes_of(rt: &HostRuntime, words: &[u16]) -> Result<Vec<u8>, Fail> {
    let mut bytes = Vec::new(rt.alloc());
    for word in words {
        for byte in word.to_be_bytes() {
            bytes.push(byte)?;
        }
    }
    Ok(bytes)
}

// What is found at position p of a run of glyphs, each with its place as its cluster.
fn find<'a>(
    gsub: Gsub<'a>,
    lookup: u16,
    alternate: u16,
    glyphs: &[u16],
    p: usize,
    met: &mut [usize; 63],
) -> Option<Found<'a>> {
    let mut slots = [Glyph {
        glyph: 0,
        cluster: 0,
    }; 8];
    let mut run = Run::new(&mut slots);
    for cluster in 0..8u32 {
        if let Some(&glyph) = glyphs.get(cluster as usize) {
            let _ = run.push(Glyph { glyph, cluster });
        }
    }
    let found = Lookup::of(gsub, lookup).choose(&OneMark, alternate, &run, p, met);
    run.close();
    found
}

// What it spans, and how many further input glyphs it has.
fn check_span(rt: &impl Abort, found: Option<Found<'_>>, lo: u32, hi: u32, inputs: usize) {
    assert!(rt; found.is_some());
    if let Some(found) = found {
        assert_eq!(rt; found.span.lo, lo);
        assert_eq!(rt; found.span.hi, hi);
        assert_eq!(rt; found.inputs, inputs);
    }
}

fn check_put(rt: &impl Abort, found: Option<Found<'_>>, glyphs: &[u16]) {
    match found.map(|found| found.action) {
        Some(Action::Put(put)) => {
            assert_eq!(rt; put.count, glyphs.len());
            for (i, &glyph) in glyphs.iter().enumerate() {
                assert_eq!(rt; put.as_slice().get(i).copied(), Some(glyph));
            }
        }
        _ => panic!(rt; "no glyphs are put"),
    }
}

fn check_join(rt: &impl Abort, found: Option<Found<'_>>, ligature: u16) {
    match found.map(|found| found.action) {
        Some(Action::Join(glyph)) => assert_eq!(rt; glyph, ligature),
        _ => panic!(rt; "nothing is joined"),
    }
}

fn check_nest(rt: &impl Abort, found: Option<Found<'_>>, records: &[(u16, u16)]) {
    match found.map(|found| found.action) {
        Some(Action::Nest(nested)) => {
            assert_eq!(rt; nested.len(), records.len());
            for (i, &(index, lookup)) in records.iter().enumerate() {
                let record = nested.get(i);
                assert_eq!(rt; record.map(|record| record.index), Some(index));
                assert_eq!(rt; record.map(|record| record.lookup), Some(lookup));
            }
            assert!(rt; nested.get(records.len()).is_none());
        }
        _ => panic!(rt; "no records are run"),
    }
}

#[test]
fn one_lookup_of_most_kinds(rt: HostRuntime) -> Result<(), Fail> {
    let bytes = bytes_of(&rt, &FIRST)?;
    let checked = Gsub::checked(rt.alloc(), bytes.as_slice());
    assert!(rt; checked.is_ok());
    let Ok(gsub) = checked else {
        return Ok(());
    };
    let mut met = [0; 63];
    let found = find(gsub, 0, 1, &[1, 5], 1, &mut met);
    check_put(&rt, found, &[8]);
    check_span(&rt, found, 1, 1, 0);
    assert!(rt; find(gsub, 0, 1, &[6], 0, &mut met).is_none());
    assert!(rt; find(gsub, 0, 1, &[5], 1, &mut met).is_none());

    let found = find(gsub, 1, 1, &[1, 3, 2], 0, &mut met);
    check_join(&rt, found, 4);
    check_span(&rt, found, 0, 2, 1);
    assert_eq!(rt; met[0], 1);
    assert!(rt; find(gsub, 1, 1, &[1, 5, 2], 0, &mut met).is_none());

    check_put(&rt, find(gsub, 2, 1, &[5], 0, &mut met), &[6]);
    check_put(&rt, find(gsub, 2, 2, &[5], 0, &mut met), &[7]);
    assert!(rt; find(gsub, 2, 0, &[5], 0, &mut met).is_none());
    assert!(rt; find(gsub, 2, 3, &[5], 0, &mut met).is_none());

    let found = find(gsub, 3, 1, &[1, 5, 3], 1, &mut met);
    check_nest(&rt, found, &[(0, 0)]);
    check_span(&rt, found, 0, 2, 0);
    assert!(rt; find(gsub, 3, 1, &[5, 3], 0, &mut met).is_none());
    assert!(rt; find(gsub, 3, 1, &[1, 5], 1, &mut met).is_none());

    let found = find(gsub, 4, 1, &[5, 6], 0, &mut met);
    check_nest(&rt, found, &[]);
    check_span(&rt, found, 0, 1, 1);
    assert!(rt; find(gsub, 4, 1, &[5, 5], 0, &mut met).is_none());

    let found = find(gsub, 5, 1, &[2, 2], 0, &mut met);
    check_put(&rt, found, &[5]);
    check_span(&rt, found, 0, 1, 0);
    assert!(rt; find(gsub, 5, 1, &[2, 2], 1, &mut met).is_none());

    check_put(&rt, find(gsub, 6, 1, &[5], 0, &mut met), &[5, 5]);

    let found = find(gsub, 7, 1, &[1, 2], 0, &mut met);
    check_nest(&rt, found, &[(1, 0)]);
    check_span(&rt, found, 0, 1, 1);
    assert!(rt; find(gsub, 7, 1, &[2, 2], 0, &mut met).is_none());

    assert!(rt; find(gsub, 8, 1, &[5], 0, &mut met).is_none());
    assert!(rt; Lookup::of(gsub, 5).is_backward());
    assert!(rt; !Lookup::of(gsub, 6).is_backward());
    assert!(rt; !Lookup::of(gsub, 8).is_backward());
    Ok(())
}

#[test]
fn subtables_and_rules_in_order(rt: HostRuntime) -> Result<(), Fail> {
    let bytes = bytes_of(&rt, &SECOND)?;
    let checked = Gsub::checked(rt.alloc(), bytes.as_slice());
    assert!(rt; checked.is_ok());
    let Ok(gsub) = checked else {
        return Ok(());
    };
    let mut met = [0; 63];
    check_put(&rt, find(gsub, 0, 1, &[0], 0, &mut met), &[65_535]);
    check_put(&rt, find(gsub, 0, 1, &[7], 0, &mut met), &[6]);
    check_put(&rt, find(gsub, 0, 1, &[5], 0, &mut met), &[50]);

    let found = find(gsub, 1, 1, &[1, 2, 2], 0, &mut met);
    check_join(&rt, found, 9);
    check_span(&rt, found, 0, 2, 2);
    assert_eq!(rt; met[1], 1);
    let found = find(gsub, 1, 1, &[1, 2, 5], 0, &mut met);
    check_join(&rt, found, 4);
    check_span(&rt, found, 0, 1, 1);

    assert!(rt; find(gsub, 2, 1, &[1, 1], 0, &mut met).is_none());
    check_nest(&rt, find(gsub, 2, 1, &[5, 1], 0, &mut met), &[(1, 0)]);
    check_nest(
        &rt,
        find(gsub, 2, 1, &[5, 2], 0, &mut met),
        &[(0, 0), (1, 0)],
    );

    let found = find(gsub, 3, 1, &[1, 5, 6, 2], 1, &mut met);
    check_nest(&rt, found, &[(1, 0)]);
    check_span(&rt, found, 0, 3, 1);
    assert!(rt; find(gsub, 3, 1, &[2, 5, 6, 2], 1, &mut met).is_none());
    assert!(rt; find(gsub, 3, 1, &[1, 5, 5, 2], 1, &mut met).is_none());
    assert!(rt; find(gsub, 3, 1, &[1, 5, 6, 1], 1, &mut met).is_none());

    let found = find(gsub, 4, 1, &[2, 1, 5, 6, 7], 2, &mut met);
    check_nest(&rt, found, &[]);
    check_span(&rt, found, 0, 4, 1);
    assert!(rt; find(gsub, 4, 1, &[1, 2, 5, 6, 7], 2, &mut met).is_none());

    let found = find(gsub, 5, 1, &[1, 5, 2], 1, &mut met);
    check_put(&rt, found, &[8]);
    check_span(&rt, found, 0, 2, 0);
    check_put(&rt, find(gsub, 5, 1, &[1, 4, 2], 1, &mut met), &[7]);
    assert!(rt; find(gsub, 5, 1, &[2, 5, 1], 1, &mut met).is_none());
    Ok(())
}
