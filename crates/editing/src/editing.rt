ghost use Rattle.std.proofs.Props.{props};
ghost use Rattle.std.specs.Prelude.{◌≡◌, ℕ, ◌+◌, ◌-◌, ◌^◌, ◌++◌, ◌≤◌, ◌<◌, ◌∷◌, ◌&&◌, [], List, true, false, suc, cond, take, drop, map, length, nat_lt, nat_le, slice_get, option_map, IfSome, IsTrue, ◌↔◌, None};
ghost use Rattle.std.specs.List.{AllByRecursion};
ghost use Rattle.model.specs.declared.Glyph.{Glyph};
ghost use Rattle.model.specs.Lookups.{Met, far as far_of, put, join};
ghost use Rattle.model.specs.Edits.{Frame as Open, told, edits, changed, frame_at, removals, without};
ghost use Rattle.model.specs.Laws.{Rising};
ghost use Rattle.matching.specs.Seek.{Outward, glyph_at, mets_at};
ghost use Rattle.run.specs.Contents.{glyphs_of as glyphs_in, room_of as room_in, lender_of as lender_in};
ghost use Rattle.editing.specs.Frames.{frame_of, innermost_first, edit, Inside, Fits};
ghost use Rattle.editing.specs.Joins.{LiesIn, further, joined};

use crate::frame::Frame;
use run::Run;

// A run that changes, and the matches that are open in it. Every change of the run's length is made here, and told to every open match.
#[derive(Drop)]
pub struct Editing<'a> {
    pub run: Run<'a>,
    // The open matches, the outermost first.
    frames: [Frame; 6],
    depth: usize,
    ghost few: { depth ≤ 6 },
    ghost inside: { AllByRecursion (Inside (length (glyphs_in run))) (map frame_of (take depth frames)) } by { Prim.hlevel props },
}

impl<'a> Editing<'a> {
    ghost use Rattle.editing.specs.Contents.{glyphs_of, open_of, room_of, lender_of};

    // A run with no open match.
    pub fn new(run: Run<'a>) -> Editing<'a>
        ensures glyphs { glyphs_of result ≡ glyphs_in run.entry }
        ensures open { open_of result ≡ [] }
        ensures room { room_of result ≡ room_in run.entry }
        ensures lender { lender_of result ≡ lender_in run.entry }
    {
        Editing {
            run,
            frames: [Frame::none(); 6],
            depth: 0,
        }
    }

    // The innermost open match's position with this index.
    pub fn position(&self, index: usize) -> Option<usize>
        ensures innermost { (f : Open) (fs : List Open) → open_of self.now ≡ f ∷ fs → result ≡ slice_get f.positions index }
        ensures none { open_of self.now ≡ [] → result ≡ None }
        ensures inside { IfSome result (λ p. p < length (glyphs_of self.now)) }
    {
        self.innermost()?.position(index)
    }

    fn innermost(&self) -> Option<Frame>
        ensures innermost { option_map frame_of result ≡ slice_get (open_of self.now) 0 }
        ensures inside { IfSome result (λ frame. Inside (length (glyphs_of self.now)) (frame_of frame)) }
    {
        let last = self.depth.checked_sub(1)?;
        Some(self.frames[last])
    }

    // Opens a match at position `p`, with further input at these indices, counted from the glyph behind it. False, and nothing changes, where six matches are open, the input is of more than 64 glyphs, or it does not rise in the run.
    pub fn open_match(&mut self, p: usize, met: &[usize]) -> bool
        ensures answer { IsTrue result ↔ (LiesIn (glyphs_of self.old) p met.now
            × (length met.now ≤ 63) × (length (open_of self.old) < 6)) }
        ensures open { result ≡ true → open_of self.new
            ≡ frame_at p (further (glyphs_of self.old) p met.now) ∷ open_of self.old }
        ensures unchanged { result ≡ false → open_of self.new ≡ open_of self.old }
        ensures glyphs { glyphs_of self.new ≡ glyphs_of self.old }
        ensures fits { length (glyphs_of self.new) ≤ room_of self.new }
        ensures room { room_of self.new ≡ room_of self.old }
        ensures lender { lender_of self.new ≡ lender_of self.old }
    {
        let len = self.run.len();
        if self.depth == 6 || met.len() > 63 || p >= len || !rise_within(met, len - p - 1) {
            return false;
        }
        self.frames[self.depth] = Frame::at(p, met);
        self.depth += 1;
        true
    }

    // Closes the innermost open match and answers its end; 0 where none is open.
    pub fn close_match(&mut self) -> usize
        ensures closed { (f : Open) (fs : List Open) → open_of self.old ≡ f ∷ fs → (result ≡ f.«end») × (open_of self.new ≡ fs) }
        ensures none { open_of self.old ≡ [] → (result ≡ 0) × (open_of self.new ≡ []) }
        ensures inside { result ≤ length (glyphs_of self.new) }
        ensures glyphs { glyphs_of self.new ≡ glyphs_of self.old }
        ensures room { room_of self.new ≡ room_of self.old }
        ensures lender { lender_of self.new ≡ lender_of self.old }
    {
        let Some(frame) = self.innermost() else {
            return 0;
        };
        self.depth -= 1;
        frame.end()
    }

    // The glyph at `p` gives way to these, which have its cluster. False, and nothing changes, where there is no such glyph, or no room.
    pub fn put(&mut self, p: usize, glyphs: &[u16]) -> bool
        ensures answer { result ≡ (nat_lt p (length (glyphs_of self.old)) && nat_le (length (glyphs_of self.old) + length glyphs.now) (room_of self.old + 1)) }
        ensures room_test { p < length (glyphs_of self.old) → (others : List Met) → result ≡ nat_le (length (changed (put glyphs.now) (glyph_at (glyphs_of self.old) p).cluster others p (glyphs_of self.old))) (room_of self.old) }
        ensures glyphs { result ≡ true → (others : List Met) → glyphs_of self.new ≡ changed (put glyphs.now) (glyph_at (glyphs_of self.old) p).cluster others p (glyphs_of self.old) }
        ensures open { result ≡ true → (others : List Met) → open_of self.new ≡ map (told (edits (put glyphs.now) others p)) (open_of self.old) }
        ensures unchanged { result ≡ false → (glyphs_of self.new ≡ glyphs_of self.old) × (open_of self.new ≡ open_of self.old) }
        ensures fits { length (glyphs_of self.new) ≤ room_of self.new }
        ensures room { room_of self.new ≡ room_of self.old }
        ensures lender { lender_of self.new ≡ lender_of self.old }
    {
        if !self.run.replace(p, glyphs) {
            return false;
        }
        // So no position of the changed run is too large to count.
        prove!(self.run.len() <= self.run.room());
        tell_all(&mut self.frames, self.depth, p, glyphs.len());
        true
    }

    // Joins the glyph at `p` and those with these indices, counted from the glyph behind it, into a ligature. It stands at `p`, the others go, and clusters merge from the first to the last of them. False, and nothing changes, where there is no such glyph, or the indices do not rise in the run.
    pub fn join(&mut self, p: usize, ligature: u16, met: &[usize]) -> bool
        ensures answer { IsTrue result ↔ LiesIn (glyphs_of self.old) p met.now }
        ensures glyphs { result ≡ true → glyphs_of self.new
            ≡ joined ligature (further (glyphs_of self.old) p met.now) p (glyphs_of self.old) }

        // Where clusters never fall, that is the change of the definitions.
        ensures rising { result ≡ true → Rising (glyphs_of self.old) → glyphs_of self.new
            ≡ changed (join ligature) (glyph_at (glyphs_of self.old) p).cluster
            (further (glyphs_of self.old) p met.now) p (glyphs_of self.old) }
        ensures open { result ≡ true → open_of self.new ≡ map
            (told (edits (join ligature) (further (glyphs_of self.old) p met.now) p))
            (open_of self.old) }
        ensures unchanged { result ≡ false
            → (glyphs_of self.new ≡ glyphs_of self.old) × (open_of self.new ≡ open_of self.old) }
        ensures fits { length (glyphs_of self.new) ≤ room_of self.new }
        ensures room { room_of self.new ≡ room_of self.old }
        ensures lender { lender_of self.new ≡ lender_of self.old }
    {
        let len = self.run.len();
        if p >= len || !rise_within(met, len - p - 1) {
            return false;
        }
        let own = self.cluster(p);
        let far = self.far(p + 1, own, met);
        self.run.merge(p, own, far);
        self.run.replace(p, &[ligature]);
        self.remove(p + 1, met);
        true
    }

    // The cluster of the glyph at `i`; 0 where there is none.
    fn cluster(&self, i: usize) -> u32
        ensures { result ≡ (glyph_at (glyphs_of self.now) i).cluster }
    {
        match self.run.get(i) {
            Some(glyph) => glyph.cluster,
            None => 0,
        }
    }

    // The cluster of the last of the glyphs with these indices, counted from `from` on; `own` where there is none.
    fn far(&self, from: usize, own: u32, met: &[usize]) -> u32
        requires few { length (glyphs_of self.now) < 2 ^ 64 }
        requires inside { from ≤ length (glyphs_of self.now) }
        requires rising { Outward 0 (length (glyphs_of self.now) - from) met.now }
        ensures { result ≡ far_of own (mets_at (drop from (glyphs_of self.now)) 0 met.now) }
    {
        match met.last() {
            Some(&last) => self.cluster(from + last),
            None => own,
        }
    }

    // Removes the glyphs with these indices, counted from `from` on, the nearest first.
    fn remove(&mut self, from: usize, met: &[usize])
        requires fits { length (glyphs_of self.old) ≤ room_of self.old }
        requires few { length (glyphs_of self.old) < 2 ^ 64 }
        requires inside { from ≤ length (glyphs_of self.old) }
        requires rising { Outward 0 (length (glyphs_of self.old) - from) met.now }
        ensures glyphs { (gs : List Glyph) → glyphs_of self.new ≡ take from (glyphs_of self.old) ++ without (mets_at gs 0 met.now) (drop from (glyphs_of self.old)) }
        ensures open { (gs : List Glyph) → open_of self.new ≡ map (told (removals from (mets_at gs 0 met.now))) (open_of self.old) }
        ensures fits { length (glyphs_of self.new) ≤ room_of self.new }
        ensures room { room_of self.new ≡ room_of self.old }
        ensures lender { lender_of self.new ≡ lender_of self.old }
    {
        for (k, &index) in met.iter().enumerate() {
            self.put(from + (index - k), &[]);
        }
    }

    // The run, with its changes. Where it was taken out of a `&mut Run`, put it back there before it is closed: a lender that moves it by value learns no more than the length of its memory.
    pub fn into_run(self) -> Run<'a>
        ensures glyphs { glyphs_in result ≡ glyphs_of self.entry }
        ensures room { room_in result ≡ room_of self.entry }
        ensures lender { lender_in result ≡ lender_of self.entry }
    {
        let Editing { run, .. } = self;
        run
    }
}

// Tells the first `depth` frames that the glyph at `position` gave way to `into` glyphs.
fn tell_all(frames: &mut [Frame], depth: usize, position: usize, into: usize)
    requires few { depth ≤ length frames.old }
    requires inside { (n : ℕ) × AllByRecursion (Inside n) (map frame_of (take depth frames.old)) × Fits n position into }
    ensures told { map frame_of (take depth frames.new) ≡ map (told (edit position into)) (map frame_of (take depth frames.old)) }
    ensures len { length frames.new ≡ length frames.old }
{
    for k in 0..depth {
        frames[k].tell(position, into);
    }
}

// Whether indices rise and lie before `n`.
fn rise_within(met: &[usize], n: usize) -> bool
    ensures rise { result ≡ true → Outward 0 n met.now }
    ensures all { Outward 0 n met.now → result ≡ true }
{
    let mut from = 0;
    for &index in met {
        if index < from || index >= n {
            return false;
        }
        from = index + 1;
    }
    true
}
