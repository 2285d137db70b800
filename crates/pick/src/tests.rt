use crate::hint::{Hint, HintKind};
use crate::line::{Stretch, find_line, pick};
use crate::refusal::Refusal;
use model::Glyph;
use std::test::Fail;

fn glyph(glyph: u16, cluster: u32) -> Glyph {
    Glyph { glyph, cluster }
}

// By hand: f i x with f i joined, and the line of the first two characters.
#[test]
fn a_line_of_glyphs(rt: HostRuntime) -> Result<(), Fail> {
    let records = [glyph(4, 0), glyph(5, 2), glyph(6, 3)];
    assert_eq!(rt; find_line(&records, 0, 2), Stretch { first: 0, count: 1 });
    assert_eq!(rt; find_line(&records, 1, 2), Stretch { first: 1, count: 0 });
    let mut buffer = [glyph(9, 9); 3];
    assert_eq!(rt;
        pick(&records, 2, 4, &mut buffer),
        Ok(Stretch { first: 1, count: 2 })
    );
    assert_eq!(rt;
        buffer.map(|g| (g.glyph, g.cluster)),
        [(5, 0), (6, 1), (9, 9)]
    );
    assert_eq!(rt; pick(&records, 2, 2, &mut []), Err(Refusal::Ends));
    assert_eq!(rt; pick(&records, 0, 4, &mut buffer[..2]), Err(Refusal::Room));
    assert_eq!(rt;
        buffer.map(|g| (g.glyph, g.cluster)),
        [(5, 0), (6, 1), (9, 9)]
    );
    Ok(())
}

// Records whose clusters fall: the leading ones below a, then the stretch from a to before b, and what follows it is not looked at.
#[test]
fn hints_out_of_order(rt: HostRuntime) -> Result<(), Fail> {
    let may = |cluster| Hint {
        cluster,
        kind: HintKind::May,
    };
    let must = |cluster| Hint {
        cluster,
        kind: HintKind::Must,
    };
    let hints = [may(1), must(4), may(5), must(2), may(4)];
    assert_eq!(rt; find_line(&hints, 3, 6), Stretch { first: 1, count: 2 });
    let mut buffer = [may(0); 2];
    assert_eq!(rt;
        pick(&hints, 3, 6, &mut buffer),
        Ok(Stretch { first: 1, count: 2 })
    );
    assert_eq!(rt; buffer, [must(1), may(2)]);
    assert_eq!(rt; (HintKind::May.number(), HintKind::Must.number()), (1, 2));
    assert_eq!(rt; (Refusal::Ends.number(), Refusal::Room.number()), (9, 8));
    Ok(())
}
