// Which clusters of a text are tied, in the memory that its break marks go into.
#![tactic(auto)]

ghost use Rattle.std.specs.Prelude.{◌≡◌, ◌<◌, ◌==◌, ℕ, cond, length, map, replicate, slice_index};
ghost use Rattle.model.specs.Shaping.{tie, marks as marks_of};
ghost use Rattle.run.specs.Contents.{glyphs_of};
ghost use Rattle.ties.specs.Ties.{tied_in, tied_mark, noted};

use run::Run;

// Ties the clusters behind `lo` up to `hi`, as far as there are marks.
pub fn tie(marks: &mut [u8], lo: u32, hi: u32)
    ensures marks { (b : ℕ) → b < length marks.old → slice_index marks.new b ≡ tied_mark lo hi marks.old b }
    ensures tied { hi < length marks.old → (b : ℕ) → tied_in marks.new b ≡ tie lo hi (tied_in marks.old) b }
    ensures len { length marks.new ≡ length marks.old }
{
    let end = (hi as usize + 1).min(marks.len());
    let start = (lo as usize + 1).min(end);
    marks[start..end].fill(1);
}

// Turns the flags into break marks: 0 where the text may be broken, 1 where a cluster is tied and a glyph has it, else 2.
pub fn settle(marks: &mut [u8], run: &Run<'_>)
    ensures marks { (hits : ℕ) → marks.new ≡ marks_of (record { run = glyphs_of run.now; tied = tied_in marks.old; hits = hits }) 0 (length marks.old) }
{
    mark_tied(marks);
    for i in 0..run.len() {
        let Some(glyph) = run.get(i) else {
            return;
        };
        mark_glyph(marks, glyph.cluster);
    }
}

// Before any glyph is known, a tied cluster is one that no glyph has.
fn mark_tied(marks: &mut [u8])
    ensures { marks.new ≡ map (λ mark. cond (mark == 0) 0 2) marks.old }
{
    for mark in marks.iter_mut() {
        if *mark != 0 {
            *mark = 2;
        }
    }
}

// Some glyph has this cluster.
fn mark_glyph(marks: &mut [u8], cluster: u32)
    ensures { marks.new ≡ noted cluster marks.old }
{
    let at = cluster as usize;
    if at < marks.len() && marks[at] != 0 {
        marks[at] = 1;
    }
}

// Unties all clusters.
pub fn clear_ties(marks: &mut [u8])
    ensures { marks.new ≡ replicate (length marks.old) 0 }
{
    marks.fill(0);
}

#[cfg(test)]
mod tests {
    use super::*;
    use model::Glyph;
    use std::test::Fail;

    // Clusters 2, 3 and 4 are tied; of these, glyphs have 3 alone.
    #[test]
    fn flags_become_break_marks(rt: HostRuntime) -> Result<(), Fail> {
        let mut marks = [9; 6];
        clear_ties(&mut marks);
        assert_eq!(rt; marks, [0; 6]);
        tie(&mut marks, 1, 3);
        tie(&mut marks, 3, 4);
        tie(&mut marks, 5, 5);
        assert_eq!(rt; marks, [0, 0, 1, 1, 1, 0]);
        let mut slots = [Glyph {
            glyph: 0,
            cluster: 0,
        }; 4];
        let mut run = Run::new(&mut slots);
        for (glyph, cluster) in [(7, 0), (8, 3), (9, 3), (7, 5)] {
            assert!(rt; run.push(Glyph { glyph, cluster }).is_ok());
        }
        settle(&mut marks, &run);
        run.close();
        assert_eq!(rt; marks, [0, 0, 2, 1, 2, 0]);
        Ok(())
    }

    // Past the marks nothing is tied, and a glyph's cluster is passed over.
    #[test]
    fn past_the_marks(rt: HostRuntime) -> Result<(), Fail> {
        let mut marks = [0; 3];
        tie(&mut marks, 1, u32::MAX);
        tie(&mut marks, 7, 9);
        assert_eq!(rt; marks, [0, 0, 1]);
        let mut slots = [Glyph {
            glyph: 0,
            cluster: 0,
        }; 1];
        let mut run = Run::new(&mut slots);
        assert!(rt;
            run.push(Glyph {
                glyph: 1,
                cluster: 3
            })
            .is_ok()
        );
        settle(&mut marks, &run);
        run.close();
        assert_eq!(rt; marks, [0, 0, 2]);
        Ok(())
    }
}
