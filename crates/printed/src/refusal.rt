// The line of a refusal (document 01, section 8).
ghost use Rattle.text.specs.Written.{Written};
ghost use Rattle.printed.specs.Built.{refused_line};

use table::Answer;
use table::numbers::number_of;
use text::line::number_line;

// Writes the line with a refusal's number.
pub fn refusal(out: &mut [u8], answer: Answer) -> usize
    ensures { Written out.old out.new 0 result (refused_line answer) }
{
    number_line(out, b"refused", number_of(answer))
}
