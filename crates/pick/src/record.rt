ghost use Rattle.std.specs.Prelude.{refl};

use model::Glyph;

// A record that tells its cluster.
pub trait HasCluster {
    ghost use Rattle.std.specs.Prelude.{◌≡◌, ℕ};

    ghost cluster_of: { Self → ℕ };

    fn cluster(&self) -> u32
        ensures { result ≡ cluster_of self.now };
}

// One that can take another cluster, and tells it then.
pub trait TakesCluster: HasCluster + Sized {
    ghost use Rattle.std.specs.Prelude.{◌≡◌, ℕ};

    ghost copy_at: { Self → ℕ → Self };

    fn copy_at(&self, cluster: u32) -> Self
        ensures { result ≡ copy_at self.now cluster };

    ghost takes: { (r : Self) (c : ℕ) → Self.HasCluster.cluster_of (copy_at r c) ≡ c };
}

impl HasCluster for Glyph {
    ghost cluster_of = { λ g. g.cluster };

    fn cluster(&self) -> u32 {
        self.cluster
    }
}

impl TakesCluster for Glyph {
    ghost copy_at = { λ g c. record { glyph = g.glyph; cluster = c } };

    ghost takes = { λ _ _. refl };

    fn copy_at(&self, cluster: u32) -> Glyph {
        Glyph {
            glyph: self.glyph,
            cluster,
        }
    }
}
