// One level of the filling on lent bytes (document 01, section 3): candidates are linked to the first entry that agrees, merged into it, or
// put behind the entries; their links are written as numbers. A call refuses where it hasn't all that it needs: it writes nothing then.
#![tactic(auto)]

mod candidate;
mod entries;
mod exchange;
mod fits;
mod halves;
mod level;
mod link;
mod narrow;
mod narrow_halves;
mod part;
mod wide;
mod wide_halves;
mod words;

ghost use Rattle.std.specs.Prelude.{◌≡◌, cond, [], ◌∷◌, map, suc, length};
ghost use Rattle.lists.specs.Written.{splice};
ghost use Rattle.reorder.specs.Sizes.{width};
ghost use Rattle.matching.specs.Parts.{level_parts, offered_parts, flat};
ghost use Rattle.matching.specs.Level.{parts_at, written};
ghost use Rattle.matching.specs.Exchange.{exchanged_part};
ghost use Rattle.matching.specs.Fits.{level_fits, candidate_fits, parts_fit};

use crate::exchange::exchange_parts;
use crate::fits::{candidate_fits, level_fits, parts_fit};
use crate::level::Level;
use crate::link::link_part;

// The bytes of a region for one level's entries; specs/Links.antt has the definition, `region_size`.
pub const REGION: usize = 4096;

// Links what the halves of count parts at from come to among the entries at to, of which there are none yet, and writes the links at
// links. Returns the number of entries, or 0 where it refuses.
pub fn link_level(
    d: usize,
    from: usize,
    count: usize,
    to: usize,
    links: usize,
    work: &mut [u8],
) -> usize
    ensures entries { result
        ≡ cond (level_fits d from count to links (length work.old))
        (length (level_parts (width d) [] (offered_parts d (parts_at (suc d) count from work.old))).parts) 0 }
    ensures work { work.new
        ≡ cond (level_fits d from count to links (length work.old))
        (written (level_parts (width d) [] (offered_parts d (parts_at (suc d) count from work.old))) to links
        work.old) work.old }
{
    let len = work.len();
    if !level_fits(d, from, count, to, links, len) {
        return 0;
    }
    let level = Level {
        d,
        from,
        count,
        to,
        links,
        len,
    };
    level.link(work)
}

// Links the candidate f of d variables among the k entries at to, and writes its link at l. Returns the number of entries, or 0 where it
// refuses.
pub fn link_candidate(d: usize, f: &[u8], to: usize, k: usize, l: usize, work: &mut [u8]) -> usize
    ensures entries { result
        ≡ cond (candidate_fits d (length f.now) to k l (length work.old))
        (length (level_parts (width d) (parts_at d k to work.old) (f.now ∷ [])).parts) 0 }
    ensures work { work.new
        ≡ cond (candidate_fits d (length f.now) to k l (length work.old))
        (written (level_parts (width d) (parts_at d k to work.old) (f.now ∷ [])) to l work.old)
        work.old }
{
    if !candidate_fits(d, f.len(), to, k, l, work.len()) {
        return 0;
    }
    link_part(d, f, to, k, l, work)
}

// Exchanges the two top variables of the count parts of d + 2 variables at from.
pub fn exchange_top(d: usize, from: usize, count: usize, work: &mut [u8])
    ensures { work.new
        ≡ cond (parts_fit d from count (length work.old))
        (splice work.old from (flat (map (exchanged_part d) (parts_at (suc (suc d)) count from work.old))))
        work.old }
{
    if !parts_fit(d, from, count, work.len()) {
        return;
    }
    exchange_parts(d, from, count, work);
}
