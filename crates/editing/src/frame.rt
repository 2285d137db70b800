ghost use Rattle.std.specs.Prelude.{◌≡◌, ℕ, ◌≤◌, ◌<◌, ◌+◌, ◌^◌, ◌++◌, ◌∷◌, [], List, take, map, length, slice_get};
ghost use Rattle.model.specs.declared.Glyph.{Glyph};
ghost use Rattle.matching.specs.Seek.{Outward, mets_at};
ghost use Rattle.model.specs.Edits.{up_from, moved_all, moved_end as moved_end_of, told, frame_at};

// An open match: the positions of its input glyphs, at most 64, and the position just after the last of them.
#[derive(Clone, Copy)]
pub struct Frame {
    positions: [usize; 64],
    count: usize,
    end: usize,
    ghost few: { count ≤ 64 },
}

impl Frame {
    ghost use Rattle.editing.specs.Frames.{frame_of, edit, Inside, Fits};

    pub(crate) fn none() -> Frame {
        Frame {
            positions: [0; 64],
            count: 0,
            end: 0,
        }
    }

    // The open match of the glyph at `p` and those with these indices, counted from the glyph behind it.
    pub(crate) fn at(p: usize, met: &[usize]) -> Frame
        requires few { length met.now ≤ 63 }
        requires rising { (n : ℕ) × Outward 0 n met.now × (p + 1 + n < 2 ^ 64) }
        ensures frame { (gs : List Glyph) → frame_of result ≡ frame_at p (mets_at gs 0 met.now) }
        ensures inside { (n : ℕ) → Outward 0 n met.now → Inside (p + 1 + n) (frame_of result) }
    {
        let behind = p + 1;
        let mut frame = Frame {
            positions: [0; 64],
            count: 0,
            end: behind,
        };
        frame.add(p, 1);
        for &index in met {
            frame.reach(behind + index);
        }
        frame
    }

    pub(crate) fn position(&self, index: usize) -> Option<usize>
        ensures { result ≡ slice_get (frame_of self.now).positions index }
    {
        self.positions[..self.count].get(index).copied()
    }

    pub(crate) fn end(&self) -> usize
        ensures { result ≡ self.now.end }
    {
        self.end
    }

    // Adds `n` positions from `first` on, up to 64 in all.
    fn add(&mut self, first: usize, n: usize)
        requires { first + n ≤ 2 ^ 64 }
        ensures positions { (frame_of self.new).positions ≡ take 64 ((frame_of self.old).positions ++ up_from first n) }
        ensures stays { self.new.end ≡ self.old.end }
    {
        for k in 0..n {
            if self.count == 64 {
                return;
            }
            self.positions[self.count] = first + k;
            self.count += 1;
        }
    }

    // Adds a position, which is the last so far.
    fn reach(&mut self, p: usize)
        requires { p + 1 < 2 ^ 64 }
        ensures positions { (frame_of self.new).positions ≡ take 64 ((frame_of self.old).positions ++ p ∷ []) }
        ensures reached { self.new.end ≡ p + 1 }
    {
        self.add(p, 1);
        self.end = p + 1;
    }

    // Adds what `p` becomes where the glyph at `position` gives way to `into` glyphs: before it `p` stays, at it are the new ones, and behind it `p` moves along.
    fn add_moved(&mut self, p: usize, position: usize, into: usize)
        requires { p + into ≤ 2 ^ 64 }
        ensures positions { (frame_of self.new).positions ≡ take 64 ((frame_of self.old).positions ++ moved_all (record { position = position; into = into }) (p ∷ [])) }
        ensures stays { self.new.end ≡ self.old.end }
    {
        if p < position {
            self.add(p, 1);
        } else if p == position {
            self.add(p, into);
        } else {
            self.add(p - 1 + into, 1);
        }
    }

    // The glyph at `position` gave way to `into` glyphs.
    pub(crate) fn tell(&mut self, position: usize, into: usize)
        requires { (n : ℕ) × Inside n (frame_of self.old) × Fits n position into }
        ensures { frame_of self.new ≡ told (edit position into) (frame_of self.old) }
    {
        let mut moved = Frame {
            positions: [0; 64],
            count: 0,
            end: moved_end(self.end, position, into),
        };
        for &p in &self.positions[..self.count] {
            moved.add_moved(p, position, into);
        }
        *self = moved;
    }
}

// An end moves only under changes before it.
fn moved_end(end: usize, position: usize, into: usize) -> usize
    requires { end + into ≤ 2 ^ 64 }
    ensures { result ≡ moved_end_of (record { position = position; into = into }) end }
{
    if end <= position { end } else { end - 1 + into }
}
