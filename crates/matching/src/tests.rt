ghost use Rattle.std.specs.Prelude.{◌==◌, cond, false, [], ◌∷◌, nat_eq};

use crate::glyphs::{Ahead, Back};
use crate::passing::Passing;
use crate::pattern::Around;
use crate::seek::{Entries, Reached};
use font::glyph_class::GlyphClass;
use font::source::FontSource;
use model::Glyph;
use run::Run;
use std::test::Fail;

// A font in which glyph 3 is a mark and no other glyph has a class.
#[derive(Drop)]
struct OneMark;

impl FontSource for OneMark {
    ghost means = { λ _. record { glyph = λ c. 0; class = λ g. cond (g == 3) 3 0; mark_class = λ g. 0; in_mark_set = λ k g. false } };

    fn glyph(&self, _character: u32) -> u16 {
        0
    }

    fn class(&self, glyph: u16) -> Option<GlyphClass> {
        if glyph == 3 {
            Some(GlyphClass::Mark)
        } else {
            None
        }
    }

    fn mark_class(&self, _glyph: u16) -> u16 {
        0
    }

    fn in_mark_set(&self, _set: u16, _glyph: u16) -> bool {
        false
    }
}

// One entry, which asks for a glyph.
#[derive(Drop)]
struct Same(u16);

impl Entries for Same {
    ghost tests = { λ same. (λ g. nat_eq g same.0) ∷ [] };

    fn len(&self) -> usize {
        1
    }

    fn meets(&self, k: usize, glyph: u16) -> bool {
        k == 0 && glyph == self.0
    }
}

// No entries.
#[derive(Drop)]
struct Nothing;

impl Entries for Nothing {
    ghost tests = { λ _. [] };

    fn len(&self) -> usize {
        0
    }

    fn meets(&self, _k: usize, _glyph: u16) -> bool {
        false
    }
}

// Glyph 1, two marks, glyph 2, each with its place as its cluster; under flag 8 the marks are passed over.
#[test]
fn marks_are_passed_over(rt: HostRuntime) -> Result<(), Fail> {
    let mut slots = [Glyph {
        glyph: 0,
        cluster: 0,
    }; 4];
    let mut run = Run::new(&mut slots);
    for (glyph, cluster) in [(1, 0), (3, 1), (3, 2), (2, 3)] {
        assert!(rt; run.push(Glyph { glyph, cluster }).is_ok());
    }
    let font = OneMark;
    let passing = Passing {
        source: &font,
        flag: 8,
        mark_set: 0,
    };
    let ahead = Ahead { run: &run, from: 1 };
    let back = Back {
        run: &run,
        before: 3,
    };
    let next = passing.next(&ahead, 0);
    assert_eq!(rt;
        next.map(|next| (next.gap, next.glyph.cluster)),
        Some((2, 3))
    );
    let next = passing.next(&back, 0);
    assert_eq!(rt;
        next.map(|next| (next.gap, next.glyph.cluster)),
        Some((2, 0))
    );
    assert!(rt; passing.next(&ahead, 3).is_none());
    let start = Reached { at: 0, far: 7 };
    let reached = passing.seek(&ahead, start, &Same(2));
    assert_eq!(rt;
        reached.map(|reached| (reached.at, reached.far)),
        Some((3, 3))
    );
    let reached = passing.seek(&back, start, &Same(1));
    assert_eq!(rt;
        reached.map(|reached| (reached.at, reached.far)),
        Some((3, 0))
    );
    assert!(rt; passing.seek(&ahead, start, &Same(1)).is_none());
    assert!(rt; passing.seek(&ahead, start, &Same(3)).is_none());
    let after_1 = Around {
        backtrack: Same(1),
        input: Nothing,
        lookahead: Nothing,
    };
    let span = passing.matches(&run, 3, &after_1, &mut []);
    assert_eq!(rt; span.map(|span| (span.lo, span.hi)), Some((0, 3)));
    let before_2 = Around {
        backtrack: Nothing,
        input: Same(2),
        lookahead: Nothing,
    };
    let mut met = [9, 8];
    assert!(rt; passing.matches(&run, 3, &before_2, &mut met).is_none());
    assert_eq!(rt; met, [9, 8]);
    let span = passing.matches(&run, 0, &before_2, &mut met);
    assert_eq!(rt; span.map(|span| (span.lo, span.hi)), Some((0, 3)));
    assert_eq!(rt; met, [2, 8]);
    let span = passing.matches(&run, 0, &before_2, &mut []);
    assert_eq!(rt; span.map(|span| (span.lo, span.hi)), Some((0, 3)));
    assert!(rt; passing.matches(&run, 4, &after_1, &mut []).is_none());
    run.close();
    Ok(())
}
