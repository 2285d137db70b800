ghost use Rattle.std.specs.Prelude.{◌≡◌, IfOk};
ghost use Rattle.paragraph.specs.Hand.{slips_in};

use paragraph::slip::Slip;
use std::alloc::{AllocError, Global};

// A hand of so many places, all empty.
pub fn empty_hand(heap: Global, places: usize) -> Result<Vec<Option<Slip>>, AllocError>
    ensures { IfOk result (λ hand. slips_in hand.items ≡ 0) }
{
    let mut hand = Vec::with_capacity(heap, places)?;
    for _ in 0..places {
        hand.push_reserved(None);
    }
    Ok(hand)
}

// A hand with no slip goes.
pub fn put_away(mut hand: Vec<Option<Slip>>)
    requires { slips_in hand.items ≡ 0 }
{
    while let Some(place) = hand.pop() {
        match place {
            None => (),
            Some(_slip) => unreachable!(),
        }
    }
    hand.destroy_empty();
}
