// A candidate among the entries of a level, whose parts lie one after the other in a region: it is merged into the first that agrees, or
// goes behind them all. A part is the bytes of its values, then as many of its care.
ghost use Rattle.std.specs.Prelude.{◌≡◌, ℕ, List, ◌+◌, ◌*◌, ◌≤◌, ◌<◌, length, take};
ghost use Rattle.matching.specs.Parts.{along_parts, candidate_part, merge_part};
ghost use Rattle.matching.specs.Level.{parts_of};
ghost use Rattle.matching.specs.Links.{word_size};
ghost use Rattle.matching.specs.Inner.Found.{constant, agreement, found};
ghost use Rattle.matching.specs.Inner.Linking.{LinksTo};

// A candidate, in whatever form.
pub(crate) trait Candidate {
    // The bytes of its values, and its part.
    ghost bytes: { Self → ℕ };

    ghost part: { Self → List ℕ };

    fn bytes(&self) -> usize
        ensures { result ≡ bytes self.now };

    // The constant that it is wherever it is cared for, false before true.
    fn constant(&self) -> Option<bool>
        ensures { result ≡ constant (bytes self.now) (part self.now) };

    // Whether it agrees with the entry inverted, where it agrees, plain before inverted. A word behind the entry may be read.
    fn agreement(&self, entry: &[u8]) -> Option<bool>
        requires { bytes self.now + bytes self.now + word_size ≤ length entry.now }
        ensures { result ≡ agreement (bytes self.now) (part self.now) (take (bytes self.now + bytes self.now) entry.now) };

    // Merges it into an entry.
    fn merge_into(&self, inverted: bool, entry: &mut [u8])
        requires { length entry.old ≡ bytes self.now + bytes self.now }
        ensures { entry.new ≡ merge_part inverted (bytes self.now) (part self.now) entry.old };

    // Makes it an entry.
    fn put(&self, entry: &mut [u8])
        requires { length entry.old ≡ bytes self.now + bytes self.now }
        ensures { entry.new ≡ part self.now };

    ghost some_bytes: { (x : Self) → 0 < bytes x };

    ghost part_len: { (x : Self) → length (part x) ≡ bytes x + bytes x };
}

// How many entries there are after a candidate, and the number of the candidate's link.
#[derive(Clone, Copy)]
pub(crate) struct Linked {
    pub entries: usize,
    pub link: usize,
}

// The first of k entries that the candidate agrees with, and whether inverted.
fn first<C: Candidate>(candidate: &C, region: &[u8], k: usize) -> Option<(usize, bool)>
    requires { (k + 1) * (C.bytes candidate.now + C.bytes candidate.now) + word_size ≤ length region.now }
    ensures { let w = C.bytes candidate.now in result ≡ found w 0 (C.part candidate.now) (parts_of w k 0 region.now) }
{
    let size = 2 * candidate.bytes();
    for e in 0..k {
        let start = e * size;
        if let Some(inverted) = candidate.agreement(&region[start..]) {
            return Some((e, inverted));
        }
    }
    None
}

// Links the candidate to the first of k entries that agrees, else behind them.
fn along<C: Candidate>(candidate: &C, region: &mut [u8], k: usize) -> Linked
    requires { (k + 1) * (C.bytes candidate.now + C.bytes candidate.now) + word_size ≤ length region.old }
    ensures { let w = C.bytes candidate.now in
        LinksTo w (along_parts w 0 (C.part candidate.now) (parts_of w k 0 region.old)) region.old result region.new }
{
    let size = 2 * candidate.bytes();
    if let Some((e, inverted)) = first(candidate, region, k) {
        let start = e * size;
        candidate.merge_into(inverted, &mut region[start..start + size]);
        return Linked {
            entries: k,
            link: 2 * (e + 1) + usize::from(inverted),
        };
    }
    let end = k * size;
    candidate.put(&mut region[end..end + size]);
    Linked {
        entries: k + 1,
        link: 2 * (k + 1),
    }
}

// Links the candidate: as a constant where it is one, else along the k entries.
pub(crate) fn link_among<C: Candidate>(candidate: &C, region: &mut [u8], k: usize) -> Linked
    requires { (k + 1) * (C.bytes candidate.now + C.bytes candidate.now) + word_size ≤ length region.old }
    ensures { let w = C.bytes candidate.now in
        LinksTo w (candidate_part w (C.part candidate.now) (parts_of w k 0 region.old)) region.old result region.new }
{
    match candidate.constant() {
        Some(value) => Linked {
            entries: k,
            link: usize::from(value),
        },
        None => along(candidate, region, k),
    }
}
