// One level: what the halves of the entries' parts come to are the candidates of the next level, whose entries' parts go to a region of
// their own. A level of narrow candidates goes by words, a wider one by halves that are copied.
ghost use Rattle.std.specs.Prelude.{◌≡◌, true, ◌≤◌, ◌<◌, length};
ghost use Rattle.matching.specs.Level.{linked_level, written};
ghost use Rattle.matching.specs.Fits.{level_fits};

use crate::entries::Entries;
use reorder::PART;
use reorder::width::width_of;

// The halves, of d variables, of the count parts at `from` go among the entries at `to`, of which there are none yet, and their links to
// `links`, in a work buffer of `len` bytes that has all that they need.
#[derive(Clone, Copy)]
pub(crate) struct Level {
    pub d: usize,
    pub from: usize,
    pub count: usize,
    pub to: usize,
    pub links: usize,
    pub len: usize,
    ghost fits: { level_fits d from count to links len ≡ true },
}

impl Level {
    // None yet.
    fn no_entries(self) -> Entries
        ensures to { result.to ≡ self.to }
        ensures count { result.count ≡ 0 }
        ensures links { result.links ≡ self.links }
    {
        Entries {
            to: self.to,
            count: 0,
            links: self.links,
        }
    }

    // Candidates of at most 64 rows.
    fn link_narrow(self, work: &mut [u8]) -> usize
        requires len { length work.old ≡ self.len }
        requires narrow { self.d ≤ 6 }
        ensures entries { result ≡ length (linked_level self.d self.from self.count work.old).parts }
        ensures work { work.new ≡ written (linked_level self.d self.from self.count work.old) self.to self.links work.old }
    {
        let size = 2 * width_of(self.d + 1);
        let mut entries = self.no_entries();
        for e in 0..self.count {
            entries.link_narrow(self.d, self.from + e * size, work);
        }
        entries.count
    }

    // Wider ones, with two buffers for an entry's halves. The loop stands twice: as a closure the turn would need its invariant in a contract.
    fn link_wide(self, work: &mut [u8]) -> usize
        requires len { length work.old ≡ self.len }
        requires wide { 6 < self.d }
        ensures entries { result ≡ length (linked_level self.d self.from self.count work.old).parts }
        ensures work { work.new ≡ written (linked_level self.d self.from self.count work.old) self.to self.links work.old }
    {
        let mut low = [0u8; PART];
        let mut high = [0u8; PART];
        let half = 2 * width_of(self.d);
        let size = 2 * width_of(self.d + 1);
        let mut entries = self.no_entries();
        for e in 0..self.count {
            entries.link_wide(
                self.d,
                self.from + e * size,
                &mut low[..half],
                &mut high[..half],
                work,
            );
        }
        entries.count
    }

    // Links all, and writes their links. Returns the number of entries.
    pub(crate) fn link(self, work: &mut [u8]) -> usize
        requires { length work.old ≡ self.len }
        ensures entries { result ≡ length (linked_level self.d self.from self.count work.old).parts }
        ensures work { work.new ≡ written (linked_level self.d self.from self.count work.old) self.to self.links work.old }
    {
        if self.d <= 6 {
            self.link_narrow(work)
        } else {
            self.link_wide(work)
        }
    }
}
