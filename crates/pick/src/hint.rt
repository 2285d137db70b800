ghost use Rattle.std.specs.Prelude.{◌≡◌, refl};
ghost use Rattle.pick.specs.Hints.{kind_number};

use crate::record::{HasCluster, TakesCluster};

// Whether a text may or must be broken.
#[derive(Clone, Copy, Debug, PartialEq)]
pub enum HintKind {
    May,
    Must,
}

impl HintKind {
    pub fn number(self) -> u8
        ensures { result ≡ kind_number self }
    {
        match self {
            HintKind::May => 1,
            HintKind::Must => 2,
        }
    }
}

// A hint where to break a text, before the character of its cluster.
#[derive(Clone, Copy, Debug, PartialEq)]
pub struct Hint {
    pub cluster: u32,
    pub kind: HintKind,
}

impl HasCluster for Hint {
    ghost cluster_of = { λ hint. hint.cluster };

    fn cluster(&self) -> u32 {
        self.cluster
    }
}

impl TakesCluster for Hint {
    ghost copy_at = { λ hint c. record { cluster = c; kind = hint.kind } };

    ghost takes = { λ _ _. refl };

    fn copy_at(&self, cluster: u32) -> Hint {
        Hint {
            cluster,
            kind: self.kind,
        }
    }
}
