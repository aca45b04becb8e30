// Candidates of more than 64 rows, in the bytes of their parts.
ghost use Rattle.std.specs.Prelude.{◌≡◌, ◌+◌, ◌%◌, ◌≤◌, ◌<◌, length, take};
ghost use Rattle.matching.specs.Links.{word_size};
ghost use Rattle.matching.specs.Inner.Found.{agreement};

use crate::candidate::Candidate;
use crate::part::{always, merge};
use crate::words::{WORD, word_at};

// A part of w bytes of values and w bytes of care, whole words each.
#[derive(Clone, Copy)]
pub(crate) struct Wide<'a> {
    pub w: usize,
    pub part: &'a [u8],
    ghost some_bytes: { 0 < w },
    ghost whole_words: { w % word_size ≡ 0 },
    ghost part_len: { length part.now ≡ w + w },
}

// Whether f agrees with the entry inverted, where it agrees, plain before inverted: compared eight bytes at a time.
fn words_agree(w: usize, f: &[u8], entry: &[u8]) -> Option<bool>
    requires whole_words { w % word_size ≡ 0 }
    requires f_len { length f.now ≡ w + w }
    requires entry_len { w + w ≤ length entry.now }
    ensures { result ≡ agreement w f.now (take (w + w) entry.now) }
{
    let mut plain: u64 = 0;
    let mut inverted: u64 = 0;
    for i in 0..w / WORD {
        let j = i * WORD;
        let both = word_at(f, w + j) & word_at(entry, w + j);
        let differ = (word_at(f, j) ^ word_at(entry, j)) & both;
        plain |= differ;
        inverted |= differ ^ both;
    }
    if plain == 0 {
        Some(false)
    } else if inverted == 0 {
        Some(true)
    } else {
        None
    }
}

// Copies a part over an entry. A loop: the library's copy would call memmove, since the compiler can't see that the two lie apart.
fn copy_part(part: &[u8], entry: &mut [u8])
    requires { length entry.old ≡ length part.now }
    ensures { entry.new ≡ part.now }
{
    for (i, byte) in part.iter().enumerate() {
        entry[i] = *byte;
    }
}

impl Candidate for Wide<'_> {
    ghost bytes = { λ c. c.w };

    ghost part = { λ c. c.part.now };

    fn bytes(&self) -> usize {
        self.w
    }

    fn constant(&self) -> Option<bool> {
        if always(false, self.w, self.part) {
            Some(false)
        } else if always(true, self.w, self.part) {
            Some(true)
        } else {
            None
        }
    }

    fn agreement(&self, entry: &[u8]) -> Option<bool> {
        words_agree(self.w, self.part, entry)
    }

    fn merge_into(&self, inverted: bool, entry: &mut [u8]) {
        merge(inverted, self.w, self.part, entry);
    }

    fn put(&self, entry: &mut [u8]) {
        copy_part(self.part, entry);
    }

    ghost some_bytes = { λ c. c.some_bytes };

    ghost part_len = { λ c. c.part_len };
}
