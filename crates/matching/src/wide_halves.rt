// The halves of a part of whole bytes, taken into buffers of their own.
ghost use Rattle.std.specs.Prelude.{◌≡◌, [], ◌∷◌, suc, ◌+◌, ◌≤◌, ◌<◌, length};
ghost use Rattle.diagram.specs.Networks.Bound.{most_variables};
ghost use Rattle.reorder.specs.Sizes.{width};
ghost use Rattle.matching.specs.Parts.{half_part, offered_parts};
ghost use Rattle.matching.specs.Level.{part_at};
ghost use Rattle.matching.specs.Inner.Linking.{HasRoom, Links};

use crate::entries::Entries;
use crate::part::unite;
use crate::wide::Wide;
use reorder::width::width_of;

// Half b of the part: the bytes of its values, and those of its care.
fn take_half(b: bool, d: usize, part: &[u8], half: &mut [u8])
    requires whole_bytes { 3 ≤ d }
    requires variables { d < most_variables }
    requires part_len { length part.now ≡ width (suc d) + width (suc d) }
    requires half_len { length half.old ≡ width d + width d }
    ensures { half.new ≡ half_part b d part.now }
{
    let w = width_of(d);
    let start = usize::from(b) * w;
    let end = start + w;
    let (values, care) = half.split_at_mut(w);
    let (part_values, part_care) = part.split_at(w + w);
    values.copy_from_slice(&part_values[start..end]);
    care.copy_from_slice(&part_care[start..end]);
}

impl Entries {
    // Links the halves of the part at a, which are taken into two lent buffers: the candidate that they become where they agree, else the
    // 0-half and then the 1-half.
    pub(crate) fn link_wide(
        &mut self,
        d: usize,
        a: usize,
        low: &mut [u8],
        high: &mut [u8],
        work: &mut [u8],
    )
        requires more_than_64_rows { 6 < d }
        requires variables { d < most_variables }
        requires in_work { a + (width (suc d) + width (suc d)) ≤ length work.old }
        requires low_len { length low.old ≡ width d + width d }
        requires high_len { length high.old ≡ width d + width d }
        requires room { HasRoom 2 (width d) self.old work.old }
        ensures { Links (width d) (offered_parts d (part_at (suc d) a work.old ∷ [])) self.old self.new work.old work.new }
    {
        let w = width_of(d);
        let end = a + 2 * width_of(d + 1);
        take_half(false, d, &work[a..end], low);
        take_half(true, d, &work[a..end], high);
        if unite(w, high, low) {
            self.link_twice(&Wide { w, part: low }, work);
        } else {
            self.link_both(&Wide { w, part: low }, &Wide { w, part: high }, work);
        }
    }
}
