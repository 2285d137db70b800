ghost use Rattle.std.specs.Prelude.{◌≡◌, ◌-◌, ◌∷◌, length, replicate, OnOk};
ghost use Rattle.run.specs.Runs.{blank};
ghost use Rattle.run.specs.Contents.{glyphs_of, room_of, lender_of};

use crate::editing::Editing;
use model::Glyph;
use run::Run;
use std::mem;
use std::process::Abort;
use std::test::Fail;

const NONE: Glyph = Glyph {
    glyph: 0,
    cluster: 0,
};

// Glyphs 1, 2, 3 and so on, with clusters from 0 on.
fn fill(rt: &impl Abort, run: &mut Run<'_>, n: u16) {
    for glyph in 0..n {
        assert!(rt;
            run.push(Glyph {
                glyph: glyph + 1,
                cluster: glyph as u32
            })
            .is_ok()
        );
    }
}

fn check(rt: &impl Abort, editing: &Editing<'_>, glyphs: &[(u16, u32)]) {
    assert_eq!(rt; editing.run.len(), glyphs.len());
    for (i, &(number, cluster)) in glyphs.iter().enumerate() {
        let found = editing.run.get(i);
        assert_eq!(rt; found.map(|found| found.glyph), Some(number));
        assert_eq!(rt; found.map(|found| found.cluster), Some(cluster));
    }
}

// The innermost open match's positions, and no more.
fn check_open(rt: &impl Abort, editing: &Editing<'_>, positions: &[usize]) {
    for (i, &position) in positions.iter().enumerate() {
        assert_eq!(rt; editing.position(i), Some(position));
    }
    assert!(rt; editing.position(positions.len()).is_none());
}

// Two glyphs for one at position 2, inside a match that is open inside another.
#[test]
fn both_open_matches_are_told(rt: HostRuntime) -> Result<(), Fail> {
    let mut slots = [NONE; 8];
    let mut run = Run::new(&mut slots);
    fill(&rt, &mut run, 6);
    let mut editing = Editing::new(run);
    check_open(&rt, &editing, &[]);
    assert!(rt; editing.open_match(0, &[1, 3]));
    check_open(&rt, &editing, &[0, 2, 4]);
    assert!(rt; editing.open_match(2, &[0]));
    check_open(&rt, &editing, &[2, 3]);
    assert!(rt; editing.put(2, &[7, 8]));
    check(
        &rt,
        &editing,
        &[(1, 0), (2, 1), (7, 2), (8, 2), (4, 3), (5, 4), (6, 5)],
    );
    check_open(&rt, &editing, &[2, 3, 4]);
    assert_eq!(rt; editing.close_match(), 5);
    check_open(&rt, &editing, &[0, 2, 3, 5]);
    // A change at the end does not move it.
    assert!(rt; editing.put(6, &[9, 9]));
    assert_eq!(rt; editing.close_match(), 6);
    assert_eq!(rt; editing.close_match(), 0);
    // Eight glyphs fill the memory.
    assert!(rt; !editing.put(0, &[1, 1]));
    assert!(rt; editing.put(0, &[10]));
    assert!(rt; !editing.put(8, &[1]));
    editing.into_run().close();
    let glyphs = slots.map(|slot| slot.glyph);
    assert_eq!(rt; glyphs, [10, 2, 7, 8, 4, 5, 9, 9]);
    Ok(())
}

// The glyphs at 1 and 3 join; the one between them is passed over, and its cluster merges.
#[test]
fn components_join(rt: HostRuntime) -> Result<(), Fail> {
    let mut slots = [NONE; 6];
    let mut run = Run::new(&mut slots);
    fill(&rt, &mut run, 6);
    let mut editing = Editing::new(run);
    assert!(rt; editing.open_match(0, &[0, 2, 3]));
    assert!(rt; editing.open_match(1, &[1, 3]));
    assert!(rt; editing.join(1, 20, &[1]));
    check(&rt, &editing, &[(1, 0), (20, 1), (3, 1), (5, 4), (6, 5)]);
    check_open(&rt, &editing, &[1, 4]);
    assert_eq!(rt; editing.close_match(), 5);
    check_open(&rt, &editing, &[0, 1, 3]);
    assert!(rt; editing.join(0, 30, &[0, 1]));
    check(&rt, &editing, &[(30, 0), (5, 4), (6, 5)]);
    check_open(&rt, &editing, &[0, 1]);
    assert_eq!(rt; editing.close_match(), 2);
    // What does not rise in the run changes nothing.
    assert!(rt; !editing.join(0, 40, &[1, 1]));
    assert!(rt; !editing.join(0, 40, &[2]));
    assert!(rt; !editing.join(3, 40, &[]));
    check(&rt, &editing, &[(30, 0), (5, 4), (6, 5)]);
    // No further component: the glyph alone gives way.
    assert!(rt; editing.join(2, 50, &[]));
    check(&rt, &editing, &[(30, 0), (5, 4), (50, 5)]);
    Ok(())
}

// At most 64 positions are kept, and at most six matches are open.
#[test]
fn the_limits(rt: HostRuntime) -> Result<(), Fail> {
    let mut slots = [NONE; 80];
    let mut run = Run::new(&mut slots);
    fill(&rt, &mut run, 70);
    let mut editing = Editing::new(run);
    let mut met = [0; 63];
    for (i, index) in met.iter_mut().enumerate() {
        *index = i;
    }
    assert!(rt; editing.open_match(0, &met));
    assert_eq!(rt; editing.position(63), Some(63));
    assert!(rt; editing.put(0, &[1, 1]));
    assert_eq!(rt; editing.position(1), Some(1));
    assert_eq!(rt; editing.position(2), Some(2));
    assert_eq!(rt; editing.position(63), Some(63));
    assert!(rt; editing.position(64).is_none());
    assert_eq!(rt; editing.close_match(), 65);
    assert!(rt; !editing.open_match(71, &[]));
    assert!(rt; !editing.open_match(69, &[1]));
    assert!(rt; !editing.open_match(69, &[0, 0]));
    for _ in 0..6 {
        assert!(rt; editing.open_match(69, &[0]));
    }
    assert!(rt; !editing.open_match(69, &[0]));
    Ok(())
}

// An open match has at most 64 glyphs.
#[test]
fn a_match_too_long(rt: HostRuntime) -> Result<(), Fail> {
    let mut slots = [NONE; 80];
    let mut run = Run::new(&mut slots);
    fill(&rt, &mut run, 70);
    let mut editing = Editing::new(run);
    let mut met = [0; 64];
    for (i, index) in met.iter_mut().enumerate() {
        *index = i;
    }
    assert!(rt; !editing.open_match(0, &met));
    check_open(&rt, &editing, &[]);
    Ok(())
}

// The run is taken out, changed, and put back.
fn put_back(run: &mut Run<'_>)
    ensures glyphs { glyphs_of run.new ≡ glyphs_of run.old }
    ensures room { room_of run.new ≡ room_of run.old }
    ensures lender { lender_of run.new ≡ lender_of run.old }
{
    let mut editing = Editing::new(mem::replace(run, Run::new(&mut [])));
    editing.open_match(0, &[]);
    editing.close_match();
    *run = editing.into_run();
}

// A caller knows what its memory holds once the run is closed.
fn lay_one(slots: &mut [Glyph], glyph: Glyph) -> Result<(), Glyph>
    ensures laid { OnOk result (slots.new ≡ glyph ∷ replicate (length slots.old - 1) blank) }
{
    let mut run = Run::new(slots);
    let laid = run.push(glyph);
    put_back(&mut run);
    run.close();
    laid
}

#[test]
fn a_caller_knows_its_memory(rt: HostRuntime) -> Result<(), Fail> {
    let mut slots = [NONE; 2];
    let glyph = Glyph {
        glyph: 5,
        cluster: 4,
    };
    assert!(rt; lay_one(&mut slots, glyph).is_ok());
    assert_eq!(rt; slots[0].glyph, 5);
    assert_eq!(rt; slots[1].glyph, 0);
    Ok(())
}
