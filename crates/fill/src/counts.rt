// The counts of trials in one slice: those of level p, the cells of each level with the variable at level p, stand from VARIABLES * p on.
ghost use Rattle.std.specs.Prelude.{◌≡◌, ◌*◌, ◌≤◌, ◌<◌, length};
ghost use Rattle.lists.specs.Written.{splice};
ghost use Rattle.diagram.specs.Networks.Bound.{most_variables};
ghost use Rattle.fill.specs.Calls.{counts_size, counts_put};

use crate::COUNTS;
use diagram::VARIABLES;

// Writes the cells of each level, with the variable at level p.
pub(crate) fn write_counts(p: usize, levels: [usize; VARIABLES], counts: &mut [usize])
    requires { (p < most_variables) × (counts_size ≤ length counts.old) }
    ensures { counts.new ≡ splice counts.old (most_variables * p) levels }
{
    let at = VARIABLES * p;
    counts[at..at + VARIABLES].copy_from_slice(&levels);
}

// Puts in the counts of level p, which are known; nothing where there is no such level, or no room for the counts of all.
#[tactic(auto, unfolding(crate::specs::Calls::counts_put, crate::specs::Calls::counts_size))]
pub fn put_counts(counts: &mut [usize], p: usize, known: [usize; VARIABLES])
    ensures { counts.new ≡ counts_put p known counts.old }
{
    if p < VARIABLES && COUNTS <= counts.len() {
        write_counts(p, known, counts);
    }
}
