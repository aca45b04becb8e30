// Entries in the work buffer, and calls of `matching` where all that they need is there, so that they don't refuse.
ghost use Rattle.std.specs.Prelude.{◌≡◌, [], ◌∷◌, map, suc, ◌+◌, ◌*◌, ◌≤◌, ◌<◌, T, length};
ghost use Rattle.lists.specs.Written.{splice};
ghost use Rattle.reorder.specs.Sizes.{width};
ghost use Rattle.matching.specs.Fits.{level_fits, candidate_fits, parts_fit};
ghost use Rattle.matching.specs.Parts.{level_parts, offered_parts, flat};
ghost use Rattle.matching.specs.Level.{parts_at, written};
ghost use Rattle.matching.specs.Exchange.{exchanged_part};

use matching::{exchange_top, link_candidate, link_level};

// The entries of a level: the byte of the work buffer at which their parts begin, and how many they are.
#[derive(Clone, Copy)]
pub(crate) struct Entries {
    pub from: usize,
    pub count: usize,
}

// Links what the halves of the entries' parts come to among the entries at to, of which there are none yet, and writes the links at links.
// Returns the entries at to.
pub(crate) fn level(d: usize, entries: Entries, to: usize, links: usize, work: &mut [u8]) -> Entries
    requires { T (level_fits d entries.from entries.count to links (length work.old)) }
    ensures from { result.from ≡ to }
    ensures count { result.count
        ≡ length (level_parts (width d) [] (offered_parts d (parts_at (suc d) entries.count entries.from work.old))).parts }
    ensures work { work.new
        ≡ written (level_parts (width d) [] (offered_parts d (parts_at (suc d) entries.count entries.from work.old))) to links
        work.old }
{
    let count = link_level(d, entries.from, entries.count, to, links, work);
    Entries { from: to, count }
}

// Links the candidate f of d variables among the entries, and writes its link at l. Returns the number of entries.
pub(crate) fn link_part(d: usize, f: &[u8], entries: Entries, l: usize, work: &mut [u8]) -> usize
    requires { T (candidate_fits d (length f.now) entries.from entries.count l (length work.old)) }
    ensures entries { result
        ≡ length (level_parts (width d) (parts_at d entries.count entries.from work.old) (f.now ∷ [])).parts }
    ensures work { work.new
        ≡ written (level_parts (width d) (parts_at d entries.count entries.from work.old) (f.now ∷ [])) entries.from l work.old }
{
    link_candidate(d, f, entries.from, entries.count, l, work)
}

// Exchanges the two top variables of the entries' parts, of d + 2 variables.
pub(crate) fn exchange_kept(d: usize, entries: Entries, work: &mut [u8])
    requires { T (parts_fit d entries.from entries.count (length work.old)) }
    ensures { work.new
        ≡ splice work.old entries.from
        (flat (map (exchanged_part d) (parts_at (suc (suc d)) entries.count entries.from work.old))) }
{
    exchange_top(d, entries.from, entries.count, work);
}
