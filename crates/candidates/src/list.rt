// Listed candidates, one by one.
ghost use Rattle.std.specs.Prelude.{◌≡◌, ◌+◌, ◌<◌, ◌∷◌, drop, length};
ghost use Rattle.candidates.specs.Views.{candidate_of, list_of};

use crate::candidate::Candidate;
use crate::listed::Listed;

impl<'a> Listed<'a> {
    pub(crate) fn len(&self) -> u16
        ensures { result ≡ length (list_of self.now) }
    {
        match self {
            Listed::One(_) => 1,
            Listed::Rules(set) => set.count(),
        }
    }

    pub(crate) fn get(&self, k: u16) -> Candidate<'a>
        requires { k < length (list_of self.now) }
        ensures { drop k (list_of self.now) ≡ candidate_of result ∷ drop (k + 1) (list_of self.now) }
    {
        match self {
            Listed::One(candidate) => *candidate,
            Listed::Rules(set) => set.rule(k),
        }
    }
}
