ghost use Rattle.std.specs.Prelude.{◌≡◌, ◌+◌, ◌≤◌, length};
ghost use Rattle.model.specs.Limits.{entries_fit, plan_fits};

use model::Entry;

// Whether plan entries rise strictly, name lookups that there are, and have an alternate value other than 0.
fn entries_fit(plan: &[Entry], lookups: u16) -> bool
    ensures { result ≡ entries_fit lookups 0 plan.now }
{
    let mut least = 0;
    for entry in plan {
        let lookup = u32::from(entry.lookup);
        if lookup < least || entry.lookup >= lookups || entry.alternate == 0 {
            return false;
        }
        least = lookup + 1;
    }
    true
}

// Whether a plan can run over a table of so many lookups.
pub(crate) fn plan_fits(plan: &[Entry], lookups: u16) -> bool
    ensures { result ≡ plan_fits lookups plan.now }
{
    plan.len() <= 64 && entries_fit(plan, lookups)
}
