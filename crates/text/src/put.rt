// Text and decimal numbers, written at an offset of a lent buffer; each answers the offset behind.
//
// They are written by hand: std's `write!` tells what was written only where it ends in `Ok`, and its writer over a `&mut [u8]` tells no byte.
// A struct of buffer and offset is no plainer: every contract would say that it keeps its buffer, and that the offset lies in it.
ghost use Rattle.std.specs.Prelude.{◌≤◌, length};
ghost use Rattle.text.specs.Text.{digits, spaced, line};
ghost use Rattle.text.specs.Written.{Written};

// The most digits before a number's last; specs/Text.antt's `decimal` has the definition.
const MORE_DIGITS: usize = 19;

// A text, as far as there is room.
pub(crate) fn put(out: &mut [u8], at: usize, text: &[u8]) -> usize
    requires { at ≤ length out.old }
    ensures { Written out.old out.new at result text.now }
{
    let end = at + text.len().min(out.len() - at);
    out[at..end].copy_from_slice(&text[..end - at]);
    end
}

// A number's digits, at most one more than `left`.
fn put_digits(out: &mut [u8], at: usize, x: usize, left: usize) -> usize
    requires { at ≤ length out.old }
    ensures { Written out.old out.new at result (digits left x) }
{
    let digit = [b'0' + (x % 10) as u8];
    if x < 10 || left == 0 {
        return put(out, at, &digit);
    }
    let next = put_digits(out, at, x / 10, left - 1);
    put(out, next, &digit)
}

// A number in decimal, with a space before it.
pub(crate) fn put_number(out: &mut [u8], at: usize, x: usize) -> usize
    requires { at ≤ length out.old }
    ensures { Written out.old out.new at result (spaced x) }
{
    let next = put(out, at, b" ");
    put_digits(out, next, x, MORE_DIGITS)
}

// A word, a number and the line's end.
pub(crate) fn put_line(out: &mut [u8], at: usize, word: &[u8], x: usize) -> usize
    requires { at ≤ length out.old }
    ensures { Written out.old out.new at result (line word.now x) }
{
    let number = put(out, at, word);
    let end = put_number(out, number, x);
    put(out, end, b"\n")
}
