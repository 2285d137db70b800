ghost use Rattle.std.specs.Prelude.{◌≡◌, ◌≤◌, ◌<◌, ◌-◌, length, slice_get, slice_set, Some, None, OnSome, IfNone};
ghost use Rattle.paragraph.specs.Hand.{in_hand, places_used};

use crate::slip::Slip;
use std::mem;

// How many places of a hand are in use: up to the last that holds a slip.
pub(crate) fn places_used(hand: &[Option<Slip>]) -> usize
    ensures used { result ≡ places_used hand.now }
    ensures within { result ≤ length hand.now }
{
    let mut used = hand.len();
    while used > 0 && hand[used - 1].is_none() {
        used -= 1;
    }
    used
}

// Takes the slip of a place, counted from 1.
pub(crate) fn take_slip(hand: &mut [Option<Slip>], slip: usize) -> Option<Slip>
    ensures slip { result ≡ in_hand hand.old slip }
    ensures taken { OnSome result (hand.new ≡ slice_set hand.old (slip - 1) None) }
    ensures none { IfNone result (hand.new ≡ hand.old) }
{
    let at = slip.checked_sub(1)?;
    if at >= hand.len() {
        return None;
    }
    hand[at].take()
}

// Puts a slip into an empty place, counted from 0.
pub(crate) fn put_slip(hand: &mut [Option<Slip>], at: usize, slip: Slip)
    requires { slice_get hand.old at ≡ Some None }
    ensures { hand.new ≡ slice_set hand.old at (Some slip) }
{
    match mem::replace(&mut hand[at], Some(slip)) {
        None => (),
        Some(_other) => unreachable!(),
    }
}
