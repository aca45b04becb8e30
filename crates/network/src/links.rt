// Links and references in the work buffer, as numbers of two bytes, low byte first.
ghost use Rattle.std.specs.Prelude.{◌≡◌, ◌+◌, ◌*◌, ◌<◌, ◌≤◌, length};
ghost use Rattle.diagram.specs.Networks.Diagram.{opposite};
ghost use Rattle.fill.specs.Work.{work_size};
ghost use Rattle.network.specs.Levels.{stored_limit, stored_at, put_stored, ref_at};

use block::bits::number_at;

// The number at byte i. Bytes past the end are zero, so it is no from_le_bytes.
pub(crate) fn stored_at(work: &[u8], i: usize) -> usize
    requires { i < 4 * stored_limit }
    ensures { (result ≡ stored_at work.now i) × (result < stored_limit) }
{
    let low = number_at(work, i);
    let high = number_at(work, i + 1);
    low + 256 * high
}

// Puts a number at byte i.
pub(crate) fn put_stored(work: &mut [u8], i: usize, x: usize)
    requires { (i + 1 < length work.old) × (x < stored_limit) }
    ensures { work.new ≡ put_stored work.old i x }
{
    let [low, high] = (x as u16).to_le_bytes();
    work[i] = low;
    work[i + 1] = high;
}

// The reference to the inverse, where odd is true.
pub fn turned(r: usize, odd: bool) -> usize
    ensures { result ≡ opposite odd r }
{
    if !odd {
        return r;
    }
    if r % 2 == 1 {
        return r - 1;
    }
    r + 1
}

// The reference that link number k stands for, where the references of the entries below stand from byte `below` on.
#[tactic(auto, unfolding(crate::specs::Levels::ref_at))]
pub(crate) fn link_ref(work: &[u8], below: usize, k: usize) -> usize
    requires { (below ≤ work_size) × (k < stored_limit) }
    ensures { (result ≡ ref_at work.now below k) × (result < stored_limit) }
{
    if k < 2 {
        return k;
    }
    let r = stored_at(work, below + 4 * (k / 2 - 1));
    turned(r, k % 2 == 1)
}
