// What offsets lead to.
ghost use Rattle.std.specs.Prelude.{◌≡◌, ◌+◌, ◌*◌, ◌^◌, ◌<◌, ◌≤◌};
ghost use Rattle.layout.specs.Told.{verdict};
ghost use Rattle.layout.specs.Faults.{first_in};
ghost use Rattle.gsub.specs.Follow.{behind, each_behind, list_faults};
ghost use Rattle.gsub.specs.Rules.{past};
ghost use Rattle.gsub.specs.Seen.{faults_of};

use crate::arrays::Array;
use crate::seen::Kind;
use crate::walk::{Start, Walk};
use layout::bytes::Width;
use layout::fault::{Rule, StructureFault};

// The offsets that an array of a structure has, behind its start.
#[derive(Clone, Copy)]
pub(crate) struct Offsets {
    pub(crate) start: Start,
    pub(crate) array: Array,
    ghost behind: { start.byte ≤ array.at },
    ghost fits: { past array < 2 ^ 64 },
}

// A kind of structure that offsets lead to.
pub(crate) trait Target {
    ghost use Rattle.std.specs.Prelude.{◌≡◌};
    ghost use Rattle.layout.specs.Told.{verdict};
    ghost use Rattle.layout.specs.Faults.{first_in};
    ghost use Rattle.gsub.specs.Follow.{Walked, Faults};

    ghost faults: { Self → Walked → Faults };

    // The first fault of a structure of this kind.
    fn check(&self, walk: &mut Walk<'_>, start: Start) -> Result<(), StructureFault>
        ensures answer { verdict result ≡ first_in (faults self.now walk.old start.byte) }
        ensures same { walk.new ≡ walk.old };
}

// One that the walk remembers, by its kind.
pub(crate) trait Remembered: Target {
    ghost use Rattle.std.specs.Prelude.{◌≡◌, ℕ};
    ghost use Rattle.gsub.specs.declared.seen.Kind.{Kind};
    ghost use Rattle.gsub.specs.Follow.{Walked};
    ghost use Rattle.gsub.specs.Seen.{faults_of};

    ghost kind: { Self → Kind };

    fn kind(&self) -> Kind
        ensures { result ≡ kind self.now };

    ghost faults_of_kind: { (target : Self) (walked : Walked) (s : ℕ) → faults_of (kind target) walked.table walked.lookups s ≡ Self.faults target walked s };
}

// The same structures; one that was found without faults before is not walked again.
#[derive(Clone, Copy, Drop)]
pub(crate) struct Once<C>(pub(crate) C);

impl<C: Remembered> Target for Once<C> {
    ghost faults = { λ once. C.faults once.0 };

    fn check(&self, walk: &mut Walk<'_>, start: Start) -> Result<(), StructureFault> {
        walk.check_once(&self.0, self.0.kind(), start)
    }
}

// A structure that is a count and offsets.
#[derive(Clone, Copy, Drop)]
pub(crate) struct ListOf<C>(pub(crate) C);

impl<C: Target> Target for ListOf<C> {
    ghost faults = { λ list walked s. list_faults walked.table s (C.faults list.0 walked) };

    fn check(&self, walk: &mut Walk<'_>, start: Start) -> Result<(), StructureFault> {
        let count = walk.structure(start).counted(start.byte, Width::Two)?;
        let array = Array {
            at: start.byte + 2,
            count: usize::from(count),
        };
        walk.check_each(&self.0, Offsets { start, array }, false)
    }
}

impl Walk<'_> {
    // Walks a structure, unless it was found without faults before.
    pub(crate) fn check_once<C: Target>(
        &mut self,
        child: &C,
        kind: Kind,
        start: Start,
    ) -> Result<(), StructureFault>
        requires { faults_of kind self.old.table self.old.lookups start.byte ≡ C.Target.faults child.now self.old start.byte }
        ensures answer { verdict result ≡ first_in (C.Target.faults child.now self.old start.byte) }
        ensures same { self.new ≡ self.old }
    {
        if self.is_remembered(kind, start) {
            return Ok(());
        }
        child.check(self, start)?;
        self.remember(kind, start);
        Ok(())
    }

    // What offset number k leads to. `null` says whether it may be 0: yes or no, with nothing beside, so that an enum would be no plainer.
    fn check_behind<C: Target>(
        &mut self,
        child: &C,
        offsets: Offsets,
        k: usize,
        null: bool,
    ) -> Result<(), StructureFault>
        requires { k < offsets.array.count }
        ensures answer { verdict result ≡ first_in (behind null self.old.table offsets.start.byte (offsets.array.at + 2 * k) (C.Target.faults child.now self.old)) }
        ensures same { self.new ≡ self.old }
    {
        let at = offsets.array.at + 2 * k;
        match self.behind(offsets.start, at) {
            Some(target) => child.check(self, target),
            None => self
                .structure(offsets.start)
                .require(null, Rule::Unknown, at),
        }
    }

    // What offsets lead to, in order.
    pub(crate) fn check_each<C: Target>(
        &mut self,
        child: &C,
        offsets: Offsets,
        null: bool,
    ) -> Result<(), StructureFault>
        ensures answer { verdict result ≡ first_in (each_behind null self.old.table offsets.start.byte offsets.array.at offsets.array.count (C.Target.faults child.now self.old)) }
        ensures same { self.new ≡ self.old }
    {
        for k in 0..offsets.array.count {
            self.check_behind(child, offsets, k, null)?;
        }
        Ok(())
    }
}
