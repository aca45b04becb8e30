// The roots, read off the links of the outputs.
ghost use Rattle.std.specs.Prelude.{◌≡◌, ◌<◌, ◌≤◌, length};
ghost use Rattle.lists.specs.Written.{over};
ghost use Rattle.diagram.specs.Networks.Bound.{most_outputs};
ghost use Rattle.fill.specs.Work.{work_size};
ghost use Rattle.lent.specs.Lent.{roots_size};
ghost use Rattle.network.specs.Levels.{stored_limit, root_at};

use crate::links::{link_ref, stored_at};
use fill::LINKS;
use lent::ROOTS;

// The root of output j, of m; zero past them.
#[tactic(auto, unfolding(crate::specs::Levels::root_at, fill::specs::Work::links_at))]
fn root_of(work: &[u8], m: usize, below: usize, j: usize) -> usize
    requires { (below ≤ work_size) × (j < most_outputs) }
    ensures { (result ≡ root_at work.now m below j) × (result < stored_limit) }
{
    if m <= j {
        return 0;
    }
    let k = stored_at(work, LINKS + 2 * j);
    link_ref(work, below, k)
}

// Writes all the roots lent, zero past the outputs.
pub(crate) fn write_roots(work: &[u8], m: usize, below: usize, roots: &mut [u16])
    requires { (below ≤ work_size) × (roots_size ≤ length roots.old) }
    ensures { roots.new ≡ over (root_at work.now m below) roots_size roots.old }
{
    for (j, root) in roots[..ROOTS].iter_mut().enumerate() {
        *root = root_of(work, m, below, j) as u16;
    }
}
