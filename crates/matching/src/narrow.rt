// Candidates of at most 64 rows, as two words. A word may be read past the end of an entry's plane: what lies there is no row that the
// candidate cares for.
ghost use Rattle.std.specs.Prelude.{◌≡◌, ◌+◌, ◌^◌, ◌≤◌, ◌<◌, length};
ghost use Rattle.matching.specs.Inner.Words.{word_size, part_of, length-part_of};

use crate::candidate::Candidate;
use crate::words::{merge_word, number, put_number, word_at};

// The values and the care, of w bytes each.
#[derive(Clone, Copy)]
pub(crate) struct Narrow {
    pub w: usize,
    pub values: u64,
    pub care: u64,
    ghost some_bytes: { 0 < w },
    ghost one_word: { w ≤ word_size },
    ghost care_within: { care < 256 ^ w },
}

impl Narrow {
    // The candidate of a part.
    pub(crate) fn of_part(w: usize, part: &[u8]) -> Narrow
        requires some_bytes { 0 < w }
        requires one_word { w ≤ word_size }
        requires part_len { length part.now ≡ w + w }
        ensures w { result.w ≡ w }
        ensures part { part_of w result.values result.care ≡ part.now }
    {
        let (values, care) = part.split_at(w);
        Narrow {
            w,
            values: number(values),
            care: number(care),
        }
    }
}

impl Candidate for Narrow {
    ghost bytes = { λ c. c.w };

    ghost part = { λ c. part_of c.w c.values c.care };

    fn bytes(&self) -> usize {
        self.w
    }

    fn constant(&self) -> Option<bool> {
        let ones = self.values & self.care;
        if ones == 0 {
            Some(false)
        } else if ones == self.care {
            Some(true)
        } else {
            None
        }
    }

    fn agreement(&self, entry: &[u8]) -> Option<bool> {
        let both = self.care & word_at(entry, self.w);
        let differ = (self.values ^ word_at(entry, 0)) & both;
        if differ == 0 {
            Some(false)
        } else if differ == both {
            Some(true)
        } else {
            None
        }
    }

    fn merge_into(&self, inverted: bool, entry: &mut [u8]) {
        let (values, care) = entry.split_at_mut(self.w);
        put_number(
            merge_word(inverted, self.values, self.care, number(values)),
            values,
        );
        put_number(self.care | number(care), care);
    }

    fn put(&self, entry: &mut [u8]) {
        let (values, care) = entry.split_at_mut(self.w);
        put_number(self.values, values);
        put_number(self.care, care);
    }

    ghost some_bytes = { λ c. c.some_bytes };

    ghost part_len = { λ c. length-part_of c.w c.values c.care };
}
