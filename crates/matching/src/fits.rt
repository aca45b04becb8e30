// Whether the calls have all that they need, from numbers alone, whatever they are: no sum and no product here is too large for its type.
ghost use Rattle.std.specs.Prelude.{◌≡◌, ◌+◌, ◌*◌, ◌<◌, leb};
ghost use Rattle.diagram.specs.Networks.Bound.{most_variables};
ghost use Rattle.matching.specs.Fits.{regions_apart, region_fits, regions_fit, count_fits, level_fits, candidate_fits, parts_fit};

use crate::REGION;
use crate::words::WORD;
use diagram::VARIABLES;
use reorder::width::width_of;

// Whether count blocks of size bytes each, the first of them at byte at, end at byte end or before it.
fn blocks_fit(at: usize, count: usize, size: usize, end: usize) -> bool
    requires { 0 < size }
    ensures { result ≡ leb (at + count * size) end }
{
    at <= end && count <= (end - at) / size
}

// Whether the regions at a and at b have no byte in common.
#[tactic(auto, unfolding(crate::specs::Fits::regions_apart))]
fn regions_apart(a: usize, b: usize) -> bool
    ensures { result ≡ regions_apart a b }
{
    blocks_fit(a, 1, REGION, b) || blocks_fit(b, 1, REGION, a)
}

// Whether the region at a lies before the links, and in the work buffer with a word behind it.
#[tactic(auto, unfolding(crate::specs::Fits::region_fits), using(crate::proofs::Buffers::Fitting::region_word))]
fn region_fits(a: usize, links: usize, len: usize) -> bool
    ensures { result ≡ region_fits a links len }
{
    blocks_fit(a, 1, REGION, links) && blocks_fit(a, 1, REGION + WORD, len)
}

// Whether a level's regions are apart, and each where it may be.
#[tactic(auto, unfolding(crate::specs::Fits::regions_fit))]
fn regions_fit(from: usize, to: usize, links: usize, len: usize) -> bool
    ensures { result ≡ regions_fit from to links len }
{
    regions_apart(from, to) && region_fits(from, links, len) && region_fits(to, links, len)
}

// Whether a region has room for the parts of count entries of d + 1 variables, and for two of d variables of each.
fn count_fits(d: usize, count: usize) -> bool
    requires { d < most_variables }
    ensures { result ≡ count_fits d count }
{
    blocks_fit(0, count, 2 * width_of(d + 1), REGION)
        && blocks_fit(0, count, 4 * width_of(d), REGION)
}

// Whether `Level` has all that it needs.
pub(crate) fn level_fits(
    d: usize,
    from: usize,
    count: usize,
    to: usize,
    links: usize,
    len: usize,
) -> bool
    ensures { result ≡ level_fits d from count to links len }
{
    d < VARIABLES
        && regions_fit(from, to, links, len)
        && count_fits(d, count)
        && blocks_fit(links, count, 4, len)
}

// Whether `link_part` has all that it needs.
pub(crate) fn candidate_fits(
    d: usize,
    size: usize,
    to: usize,
    k: usize,
    l: usize,
    len: usize,
) -> bool
    ensures { result ≡ candidate_fits d size to k l len }
{
    if VARIABLES < d {
        return false;
    }
    let s = 2 * width_of(d);
    size == s
        && blocks_fit(to, 1, REGION + WORD, len)
        && blocks_fit(s, k, s, REGION)
        && blocks_fit(l, 2, 1, len)
}

// Whether `exchange_parts` has all that it needs.
pub(crate) fn parts_fit(d: usize, from: usize, count: usize, len: usize) -> bool
    ensures { result ≡ parts_fit d from count len }
{
    d <= VARIABLES - 2 && blocks_fit(from, count, 2 * width_of(d + 2), len)
}
