// The run of a text, in memory that the caller lends.
#![tactic(auto)]

ghost use Rattle.std.specs.Prelude.{◌≡◌, ◌≤◌, ◌<◌, ◌+◌, ◌-◌, ◌++◌, ◌∷◌, ◌↔◌, ◌&&◌, [], true, length, take, drop, map, remove, replicate, slice_get, if◌then◌else◌, nat_lt, nat_le, IsOk, IfErr, OnErr, OnOk};
ghost use Rattle.model.specs.Edits.{at_cluster};
ghost use Rattle.run.specs.Runs.{blank, replaced, merged_while, merged_from};
ghost use Rattle.run.specs.Laws.{MergesWholeRun};

use model::Glyph;

// The glyphs of a text, in order. Changes come at places that move through the run, and a plain list would move all glyphs behind each of them. So the free memory lies as a gap where the last change was: the glyphs before it stand at the front of the memory, those behind it at its end. A change moves the gap to its place first, and with it the glyphs between the two places and no more.
//
// It has no `impl Model`: of a value that contracts see only as a whole, a lender does not learn what it leaves in the memory. Contracts speak through `specs/Contents.antt` instead.
#[derive(Drop)]
pub struct Run<'a> {
    slots: &'a mut [Glyph],
    // The gap lies from `front` to `back`.
    front: usize,
    back: usize,
    ghost gap: { (front ≤ back) × (back ≤ length slots.now) },
}

// That the glyphs are two parts of the memory is seen here and by no caller.
#[tactic(auto, unfolding(crate::specs::Contents::glyphs_of))]
impl<'a> Run<'a> {
    ghost use Rattle.run.specs.Contents.{glyphs_of, room_of, lender_of};

    // A run of no glyphs, with room for as many as `slots` has.
    pub fn new(slots: &'a mut [Glyph]) -> Run<'a>
        ensures glyphs { glyphs_of result ≡ [] }
        ensures room { room_of result ≡ length slots.old }
        ensures lender { lender_of result ≡ slots.entry.ghost_name }
    {
        let back = slots.len();
        Run {
            slots,
            front: 0,
            back,
        }
    }

    pub fn len(&self) -> usize
        ensures len { result ≡ length (glyphs_of self.now) }
        ensures fits { result ≤ room_of self.now }
    {
        self.front + (self.slots.len() - self.back)
    }

    pub fn room(&self) -> usize
        ensures { result ≡ room_of self.now }
    {
        self.slots.len()
    }

    pub fn get(&self, i: usize) -> Option<Glyph>
        ensures { result ≡ slice_get (glyphs_of self.now) i }
    {
        if i < self.front {
            Some(self.slots[i])
        } else if i - self.front < self.slots.len() - self.back {
            Some(self.slots[self.back + (i - self.front)])
        } else {
            None
        }
    }

    // Adds a glyph behind the last, or hands it back where there is no room. After a change elsewhere the gap moves to the end first.
    pub fn push(&mut self, glyph: Glyph) -> Result<(), Glyph>
        ensures ok { IsOk result ↔ (length (glyphs_of self.old) < room_of self.old) }
        ensures pushed { OnOk result (glyphs_of self.new ≡ glyphs_of self.old ++ glyph ∷ []) }
        ensures handed_back { IfErr result (λ back. back ≡ glyph) }
        ensures unchanged { OnErr result (glyphs_of self.new ≡ glyphs_of self.old) }
        ensures room { room_of self.new ≡ room_of self.old }
        ensures lender { lender_of self.new ≡ lender_of self.old }
    {
        if self.front == self.back {
            return Err(glyph);
        }
        let last = self.len();
        self.back = move_gap(self.slots, self.front, self.back, last);
        self.slots[last] = glyph;
        self.front = last + 1;
        Ok(())
    }

    // The glyph at `i` gives way to these, which have its cluster; where they are none, it is removed. False where there is no such glyph, or no room.
    pub fn replace(&mut self, i: usize, glyphs: &[u16]) -> bool
        ensures answer { result ≡ (nat_lt i (length (glyphs_of self.old)) && nat_le (length (glyphs_of self.old) + length glyphs.now) (room_of self.old + 1)) }
        ensures glyphs { glyphs_of self.new ≡ (if result then replaced i glyphs.now (glyphs_of self.old) else glyphs_of self.old) }
        ensures fits { length (glyphs_of self.old) ≤ room_of self.old }
        ensures room { room_of self.new ≡ room_of self.old }
        ensures lender { lender_of self.new ≡ lender_of self.old }
    {
        if i >= self.len() || glyphs.len() > self.back - self.front + 1 {
            return false;
        }
        let back = move_gap(self.slots, self.front, self.back, i);
        let cluster = self.slots[back].cluster;
        write(self.slots, i, glyphs, cluster);
        self.front = i + glyphs.len();
        self.back = back + 1;
        true
    }

    pub fn remove(&mut self, i: usize) -> bool
        ensures answer { result ≡ nat_lt i (length (glyphs_of self.old)) }
        ensures glyphs { glyphs_of self.new ≡ (if result then remove (glyphs_of self.old) i else glyphs_of self.old) }
        ensures room { room_of self.new ≡ room_of self.old }
        ensures lender { lender_of self.new ≡ lender_of self.old }
    {
        self.replace(i, &[])
    }

    // From position `i` on, as long as a glyph's cluster is at most `hi`, it becomes `lo`.
    pub fn merge(&mut self, i: usize, lo: u32, hi: u32)
        ensures glyphs { glyphs_of self.new ≡ merged_from i lo hi (glyphs_of self.old) }
        ensures room { room_of self.new ≡ room_of self.old }
        ensures lender { lender_of self.new ≡ lender_of self.old }
    {
        if i < self.len() {
            let back = move_gap(self.slots, self.front, self.back, i);
            merge_while(&mut self.slots[back..], lo, hi);
            self.front = i;
            self.back = back;
        }
    }

    // Leaves the glyphs at the front of the lent memory, which is `self.exit.0`, and blank ones behind them.
    pub fn close(self)
        ensures memory { self.exit.0.now ≡ glyphs_of self.entry ++ replicate (room_of self.entry - length (glyphs_of self.entry)) blank }
    {
        let len = self.len();
        let Run { slots, front, back } = self;
        move_gap(slots, front, back, len);
        clear(&mut slots[len..]);
    }
}

// Leaves no glyph in the memory of a run.
pub fn clear(slots: &mut [Glyph])
    ensures { slots.new ≡ replicate (length slots.old) blank }
{
    slots.fill(Glyph {
        glyph: 0,
        cluster: 0,
    });
}

// Moves the gap from `front` to `at`, and tells where it ends then.
fn move_gap(slots: &mut [Glyph], front: usize, back: usize, at: usize) -> usize
    requires gap { front ≤ back }
    requires inside { back ≤ length slots.old }
    requires place { at ≤ front + (length slots.old - back) }
    ensures glyphs { take at slots.new ++ drop result slots.new ≡ take front slots.old ++ drop back slots.old }
    ensures width { result + front ≡ back + at }
    ensures room { length slots.new ≡ length slots.old }
{
    if at < front {
        let end = back - (front - at);
        slots.copy_within(at..front, end);
        end
    } else {
        let end = back + (at - front);
        slots.copy_within(back..end, front);
        end
    }
}

// Writes glyphs of one cluster from `at` on.
fn write(slots: &mut [Glyph], at: usize, glyphs: &[u16], cluster: u32)
    requires { at + length glyphs.now ≤ length slots.old }
    ensures { slots.new ≡ take at slots.old ++ (map (at_cluster cluster) glyphs.now ++ drop (at + length glyphs.now) slots.old) }
{
    for (i, &glyph) in glyphs.iter().enumerate() {
        slots[at + i] = Glyph { glyph, cluster };
    }
}

// As long as a glyph's cluster is at most `hi`, it becomes `lo`.
fn merge_while(slots: &mut [Glyph], lo: u32, hi: u32)
    ensures { slots.new ≡ merged_while lo hi slots.old }
{
    for slot in slots.iter_mut() {
        if slot.cluster > hi {
            return;
        }
        slot.cluster = lo;
    }
}

// Where clusters never fall, and are at most `lo` before a position and at least `lo` from it on, merging from there is merging in the whole run.
pub fn merges_whole_run()
    ensures { MergesWholeRun }
{}

#[cfg(test)]
mod tests {
    use super::*;
    use std::process::Abort;
    use std::test::Fail;

    // A caller knows what its memory holds once the run is closed.
    fn lay_one(slots: &mut [Glyph], glyph: Glyph) -> Result<(), Glyph>
        ensures laid { OnOk result (slots.new ≡ glyph ∷ replicate (length slots.old - 1) blank) }
        ensures ok { IsOk result ↔ (0 < length slots.old) }
    {
        let mut run = Run::new(slots);
        let laid = run.push(glyph);
        run.close();
        laid
    }

    fn glyph(glyph: u16, cluster: u32) -> Glyph {
        Glyph { glyph, cluster }
    }

    fn check(rt: &impl Abort, run: &Run<'_>, glyphs: &[(u16, u32)]) {
        assert_eq!(rt; run.len(), glyphs.len());
        for (i, &(number, cluster)) in glyphs.iter().enumerate() {
            let found = run.get(i);
            assert_eq!(rt; found.map(|found| found.glyph), Some(number));
            assert_eq!(rt; found.map(|found| found.cluster), Some(cluster));
        }
    }

    // The lists are worked out by hand.
    #[test]
    fn a_small_history(rt: HostRuntime) -> Result<(), Fail> {
        let mut slots = [glyph(99, 99); 6];
        let mut run = Run::new(&mut slots);
        assert_eq!(rt; run.room(), 6);
        check(&rt, &run, &[]);
        for (number, cluster) in [(1, 0), (2, 1), (3, 2)] {
            assert!(rt; run.push(glyph(number, cluster)).is_ok());
        }
        assert!(rt; run.replace(1, &[7, 8]));
        check(&rt, &run, &[(1, 0), (7, 1), (8, 1), (3, 2)]);
        assert!(rt; !run.replace(0, &[4, 5, 6, 7]));
        assert!(rt; run.remove(2));
        run.merge(1, 1, 2);
        check(&rt, &run, &[(1, 0), (7, 1), (3, 1)]);
        for (number, cluster) in [(4, 3), (5, 4), (6, 5)] {
            assert!(rt; run.push(glyph(number, cluster)).is_ok());
        }
        assert!(rt; run.push(glyph(7, 6)).is_err());
        assert!(rt; run.replace(0, &[10]));
        assert!(rt; !run.remove(6));
        assert!(rt; run.get(6).is_none());
        run.merge(2, 1, 3);
        check(
            &rt,
            &run,
            &[(10, 0), (7, 1), (3, 1), (4, 1), (5, 4), (6, 5)],
        );
        assert!(rt; run.remove(5));
        run.close();
        let numbers = [10, 7, 3, 4, 5, 0];
        assert_eq!(rt; slots.len(), numbers.len());
        for (slot, number) in slots.iter().zip(numbers) {
            assert_eq!(rt; slot.glyph, number);
        }
        Ok(())
    }

    #[test]
    fn a_caller_knows_its_memory(rt: HostRuntime) -> Result<(), Fail> {
        let mut slots = [glyph(99, 99); 2];
        assert!(rt; lay_one(&mut slots, glyph(1, 0)).is_ok());
        assert_eq!(rt; slots[0].glyph, 1);
        assert_eq!(rt; slots[1].glyph, 0);
        assert!(rt; lay_one(&mut [], glyph(1, 0)).is_err());
        Ok(())
    }
}
