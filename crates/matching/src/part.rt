// The tests and the merge on parts: w bytes of values, then w bytes of care.
ghost use Rattle.std.specs.Prelude.{◌≡◌, false, ◌+◌, ◌≤◌, length};
ghost use Rattle.matching.specs.Bytes.{always_byte, merge_byte};
ghost use Rattle.matching.specs.Parts.{always_part, agree_part, merge_part, united_or};

use crate::words::merge_word;

// Whether f is v wherever c is 1.
#[tactic(auto, unfolding(crate::specs::Bytes::always_byte))]
fn always_byte(v: bool, f: u8, c: u8) -> bool
    ensures { result ≡ always_byte v f c }
{
    if v { f & c == c } else { f & c == 0 }
}

// Whether the candidate f is v wherever it is specified.
pub(crate) fn always(v: bool, w: usize, f: &[u8]) -> bool
    requires { w + w ≤ length f.now }
    ensures { result ≡ always_part v w f.now }
{
    (0..w).all(|j| always_byte(v, f[j], f[w + j]))
}

// Whether f equals g wherever both are specified.
fn agree(w: usize, f: &[u8], g: &[u8]) -> bool
    requires f_len { w + w ≤ length f.now }
    requires g_len { w + w ≤ length g.now }
    ensures { result ≡ agree_part false w f.now g.now }
{
    (0..w).all(|j| (f[j] ^ g[j]) & (f[w + j] & g[w + j]) == 0)
}

// The merge of words on a byte.
fn merge_byte(i: bool, f: u8, c: u8, g: u8) -> u8
    ensures { result ≡ merge_byte i f c g }
{
    merge_word(i, f.into(), c.into(), g.into()) as u8
}

// Merges the candidate f into the entry g. By index, since both planes are written in step.
pub(crate) fn merge(i: bool, w: usize, f: &[u8], g: &mut [u8])
    requires f_len { length f.now ≡ w + w }
    requires g_len { length g.old ≡ w + w }
    ensures { g.new ≡ merge_part i w f.now g.old }
{
    let (f_values, f_care) = f.split_at(w);
    let (values, care) = g.split_at_mut(w);
    for j in 0..w {
        values[j] = merge_byte(i, f_values[j], f_care[j], values[j]);
        care[j] |= f_care[j];
    }
}

// Merges f into g where the two agree wherever both are cared. Returns whether they do.
pub(crate) fn unite(w: usize, f: &[u8], g: &mut [u8]) -> bool
    requires f_len { length f.now ≡ w + w }
    requires g_len { length g.old ≡ w + w }
    ensures value { result ≡ agree_part false w f.now g.old }
    ensures g_after { g.new ≡ united_or w f.now g.old g.old }
{
    let agree = agree(w, f, g);
    if agree {
        merge(false, w, f, g);
    }
    agree
}
