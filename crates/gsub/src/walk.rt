ghost use Rattle.std.specs.Prelude.{◌≡◌, ◌≢◌, ◌==◌, not, true, ◌+◌, ◌^◌, ◌<◌, ◌≤◌, IfOk, IfSome, IfNone, None};
ghost use Rattle.layout.specs.Bytes.{u16_at};
ghost use Rattle.layout.specs.Faults.{first_in, unless};
ghost use Rattle.layout.specs.Told.{verdict};
ghost use Rattle.gsub.specs.Seen.{NothingSeen, faults_of};

use crate::seen::Kind;
use layout::fault::{Rule, StructureFault};
use layout::structure::Structure;
use std::alloc::Global;
use std::marker::Model;

// Where a structure may start: a byte that an offset can lead to. Its sums with sizes and with further offsets fit.
#[derive(Clone, Copy)]
pub(crate) struct Start {
    pub(crate) byte: usize,
    ghost near: { byte < 2 ^ 63 + 2 ^ 32 },
}

// Room for what is remembered of a table of so many bytes: for all of it, else for half of it, and
// so on, at last none.
pub(crate) fn room_for(heap: Global, bytes: usize) -> Vec<u16>
    ensures { NothingSeen result.items }
{
    let mut room = bytes;
    while room > 0 {
        if let Ok(seen) = vec![in heap; 0u16; room] {
            return seen;
        }
        room /= 2;
    }
    Vec::new(heap)
}

// A walk over a table with so many lookups. It remembers what it found without faults, which changes no answer: contracts see the table and the lookups alone. What takes it by `&mut` says that they stay (`same`); a type cannot say that of a call.
#[derive(Drop)]
pub(crate) struct Walk<'a> {
    table: &'a [u8],
    lookups: u16,
    // For each byte, up to its length, the kinds of structures that start there, a bit each. A set of the library would be no shorter, and take many times the memory where a table leads to every byte.
    seen: Vec<u16>,
    // How many structures were walked to their end, so that a test can show that one is not walked twice.
    walked: u64,
}

impl<'a> Model for Walk<'a> {
    ghost use Rattle.std.specs.Prelude.{◌^◌, ◌<◌, length};
    ghost use Rattle.gsub.specs.Follow.{Walked};
    ghost use Rattle.gsub.specs.Seen.{Sound};

    ghost Value = { Walked };

    ghost view = { λ w. record { table = w.table.now; lookups = w.lookups } };

    ghost invariant = { λ w. Sound w.table.now w.lookups w.seen.items × (length w.table.now < 2 ^ 63) };
}

impl<'a> Walk<'a> {
    // At first nothing is remembered. What starts past the room for it never is.
    pub(crate) fn new(seen: Vec<u16>, table: &'a [u8], lookups: u16) -> Walk<'a>
        requires { NothingSeen seen.items }
        ensures { (result.table ≡ table.now) × (result.lookups ≡ lookups) }
    {
        Walk {
            table,
            lookups,
            seen,
            walked: 0,
        }
    }

    pub(crate) fn structure(&self, start: Start) -> Structure<'a>
        ensures table { result.table.now ≡ self.now.table }
        ensures start { result.start ≡ start.byte }
    {
        Structure {
            table: self.table,
            start: start.byte,
        }
    }

    // What an offset in the structure at `start` leads to; nothing where it is 0.
    pub(crate) fn behind(&self, start: Start, at: usize) -> Option<Start>
        requires { start.byte ≤ at }
        ensures some { IfSome result (λ target. (target.byte ≡ start.byte + u16_at self.now.table at) × (u16_at self.now.table at ≢ 0)) }
        ensures none { IfNone result (u16_at self.now.table at ≡ 0) }
    {
        let target = self.structure(start).behind(at)?;
        Some(Start { byte: target.start })
    }

    // The same where an offset of 0 is a fault.
    pub(crate) fn follow(&self, start: Start, at: usize) -> Result<Start, StructureFault>
        requires { start.byte ≤ at }
        ensures answer { verdict result ≡ first_in (unless (not (u16_at self.now.table at == 0)) 2 start.byte at) }
        ensures target { IfOk result (λ target. (target.byte ≡ start.byte + u16_at self.now.table at) × (u16_at self.now.table at ≢ 0)) }
    {
        let structure = self.structure(start);
        self.behind(start, at)
            .ok_or(structure.broken(Rule::Unknown, at))
    }

    pub(crate) fn lookups(&self) -> u16
        ensures { result ≡ self.now.lookups }
    {
        self.lookups
    }

    // Whether a structure was found without faults before.
    pub(crate) fn is_remembered(&self, kind: Kind, start: Start) -> bool
        ensures { result ≡ true → first_in (faults_of kind self.now.table self.now.lookups start.byte) ≡ None }
    {
        start.byte < self.seen.len() && self.seen[start.byte] & kind.bit() != 0
    }

    // Remembers one.
    pub(crate) fn remember(&mut self, kind: Kind, start: Start)
        requires { first_in (faults_of kind self.old.table self.old.lookups start.byte) ≡ None }
        ensures { self.new ≡ self.old }
    {
        self.walked = self.walked.saturating_add(1);
        if start.byte < self.seen.len() {
            self.seen[start.byte] |= kind.bit();
        }
    }
}

#[cfg(test)]
mod tests {
    use super::*;
    use std::test::Fail;

    fn push(table: &mut Vec<u8>, words: &[u16]) -> Result<(), Fail> {
        for word in words {
            for byte in word.to_be_bytes() {
                table.push(byte)?;
            }
        }
        Ok(())
    }

    // A count, and that many offsets to the same structure.
    fn push_list(table: &mut Vec<u8>, count: u16, offset: u16) -> Result<(), Fail> {
        push(table, &[count])?;
        for _ in 0..count {
            push(table, &[offset])?;
        }
        Ok(())
    }

    // As many lookups, subtables, rule sets and rules as 16 bits lead to, each time the same one: 2^60 walks to a rule, were each walked every time that an offset leads to it.
    #[test]
    fn shared_structures_are_walked_once(rt: HostRuntime) -> Result<(), Fail> {
        let mut table = Vec::new(rt.alloc());
        push(&mut table, &[1, 0, 0, 0, 10])?;
        push_list(&mut table, 32_766, 65_534)?;
        push(&mut table, &[5, 0])?;
        push_list(&mut table, 32_764, 65_534)?;
        push(&mut table, &[1, 65_528])?;
        push_list(&mut table, 32_761, 65_534)?;
        push(&mut table, &[1, 1, 7])?;
        push_list(&mut table, 32_766, 65_534)?;
        push(&mut table, &[1, 0])?;
        let seen = room_for(rt.alloc(), table.len());
        let mut walk = Walk::new(seen, table.as_slice(), 32_766);
        assert!(rt; walk.check_lookups(Start { byte: 10 }).is_ok());
        // The lookup, its subtable, the coverage and the rule set.
        assert_eq!(rt; walk.walked, 4);
        Ok(())
    }

    // Three lookups that are one, of type 1: with no room the same answer, and each is walked
    // whenever an offset leads to it.
    #[test]
    fn without_room_the_same_is_answered(rt: HostRuntime) -> Result<(), Fail> {
        let mut table = Vec::new(rt.alloc());
        push(&mut table, &[1, 0, 0, 0, 10])?;
        push_list(&mut table, 3, 8)?;
        push(&mut table, &[1, 0])?;
        push_list(&mut table, 1, 8)?;
        push(&mut table, &[1, 6, 1, 1, 1, 5])?;
        let mut walk = Walk::new(Vec::new(rt.alloc()), table.as_slice(), 3);
        assert!(rt; walk.check_lookups(Start { byte: 10 }).is_ok());
        // The lookup, its subtable and the coverage, three times.
        assert_eq!(rt; walk.walked, 9);
        Ok(())
    }
}
