// Candidates linked: their parts go among the entries of a region, and their links' numbers behind the regions.
ghost use Rattle.std.specs.Prelude.{◌≡◌, [], ◌∷◌, ◌+◌, ◌*◌, ◌/◌, ◌%◌, ◌≤◌, length};
ghost use Rattle.lists.specs.Written.{splice};
ghost use Rattle.diagram.specs.Networks.Bound.{most_variables};
ghost use Rattle.reorder.specs.Sizes.{width};
ghost use Rattle.matching.specs.Links.{region_size, word_size, link_number};
ghost use Rattle.matching.specs.Parts.{candidate_part, level_parts};
ghost use Rattle.matching.specs.Level.{parts_of, parts_at, written};
ghost use Rattle.matching.specs.Inner.Linking.{HasRoom, Links};

use crate::REGION;
use crate::candidate::{Candidate, Linked, link_among};
use crate::entries::Entries;
use crate::narrow::Narrow;
use crate::wide::Wide;
use crate::words::WORD;
use reorder::width::width_of;

// Writes a link's number as two bytes, the low one first.
fn put_link(link: usize, work: &mut [u8], at: usize)
    requires { at + 2 ≤ length work.old }
    ensures { work.new ≡ splice work.old at (link % 256 ∷ link / 256 % 256 ∷ []) }
{
    work[at..at + 2].copy_from_slice(&link.to_le_bytes()[..2]);
}

// Links the candidate among the k entries at to, and writes its link at l.
fn link<C: Candidate>(candidate: &C, to: usize, k: usize, l: usize, work: &mut [u8]) -> Linked
    requires region { to + region_size + word_size ≤ length work.old }
    requires entry_room { (k + 1) * (C.bytes candidate.now + C.bytes candidate.now) ≤ region_size }
    requires link_room { l + 2 ≤ length work.old }
    ensures entries { let w = C.bytes candidate.now in
        result.entries ≡ length (level_parts w (parts_of w k to work.old) (C.part candidate.now ∷ [])).parts }
    ensures link { let w = C.bytes candidate.now in
        result.link ≡ link_number (candidate_part w (C.part candidate.now) (parts_of w k to work.old)).link }
    ensures work { let w = C.bytes candidate.now in
        work.new ≡ written (level_parts w (parts_of w k to work.old) (C.part candidate.now ∷ [])) to l work.old }
{
    let linked = link_among(candidate, &mut work[to..to + REGION + WORD], k);
    put_link(linked.link, work, l);
    linked
}

// Links the candidate f of d variables among the k entries at to, and writes its link at l. Returns the number of entries.
pub(crate) fn link_part(d: usize, f: &[u8], to: usize, k: usize, l: usize, work: &mut [u8]) -> usize
    requires variables { d ≤ most_variables }
    requires f_len { length f.now ≡ width d + width d }
    requires region { to + region_size + word_size ≤ length work.old }
    requires entry_room { (k + 1) * (width d + width d) ≤ region_size }
    requires link_room { l + 2 ≤ length work.old }
    ensures entries { result ≡ length (level_parts (width d) (parts_at d k to work.old) (f.now ∷ [])).parts }
    ensures work { work.new
        ≡ written (level_parts (width d) (parts_at d k to work.old) (f.now ∷ [])) to l work.old }
{
    let w = width_of(d);
    if w <= WORD {
        link(&Narrow::of_part(w, f), to, k, l, work).entries
    } else {
        link(&Wide { w, part: f }, to, k, l, work).entries
    }
}

impl Entries {
    // Links the candidate. Returns its link's number.
    fn link<C: Candidate>(&mut self, candidate: &C, work: &mut [u8]) -> usize
        requires { HasRoom 1 (C.bytes candidate.now) self.old work.old }
        ensures link { let w = C.bytes candidate.now in
            result ≡ link_number (candidate_part w (C.part candidate.now) (parts_of w self.old.count self.old.to work.old)).link }
        ensures links { Links (C.bytes candidate.now) (C.part candidate.now ∷ []) self.old self.new work.old work.new }
    {
        let linked = link(candidate, self.to, self.count, self.links, work);
        self.count = linked.entries;
        self.links += 2;
        linked.link
    }

    // Links the candidate, and writes its link twice: as if it were linked twice, since a candidate that is linked again ends in the same
    // link and changes no entry.
    pub(crate) fn link_twice<C: Candidate>(&mut self, candidate: &C, work: &mut [u8])
        requires { HasRoom 2 (C.bytes candidate.now) self.old work.old }
        ensures { Links (C.bytes candidate.now) (C.part candidate.now ∷ C.part candidate.now ∷ []) self.old self.new work.old work.new }
    {
        let number = self.link(candidate, work);
        put_link(number, work, self.links);
        self.links += 2;
    }

    // Links two candidates of the same size.
    pub(crate) fn link_both<C: Candidate>(&mut self, f: &C, g: &C, work: &mut [u8])
        requires same_size { C.bytes g.now ≡ C.bytes f.now }
        requires room { HasRoom 2 (C.bytes f.now) self.old work.old }
        ensures { Links (C.bytes f.now) (C.part f.now ∷ C.part g.now ∷ []) self.old self.new work.old work.new }
    {
        self.link(f, work);
        self.link(g, work);
    }
}
