// The rules of a set, by what they are.
use crate::asks::Asks;

#[derive(Clone, Copy)]
pub(crate) enum Rules {
    // Of type 4.
    Ligatures,
    // Of type 6 if they chain, else of type 5; and what the entries of their arrays ask.
    Context {
        chain: bool,
        backtrack: Asks,
        input: Asks,
        lookahead: Asks,
    },
}
