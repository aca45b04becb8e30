// The work buffer after a call on a network file: zero after some answers, else as it was.
ghost use Rattle.std.specs.Prelude.{◌≡◌, cond};
ghost use Rattle.fill.specs.Work.{cleared_work};
ghost use Rattle.network_file.specs.Read.{clears_checked};

use fill::clear;
use table::{Answer, Refusal};

// Whether an answer leaves the work buffer zero: a success, 23 and 32.
fn clears_work(answer: Answer) -> bool
    ensures { result ≡ clears_checked answer }
{
    matches!(
        answer,
        Ok(_) | Err(Refusal::TooSmall(_)) | Err(Refusal::NotCanonical)
    )
}

// Makes the work buffer zero after an answer that leaves it so.
pub(crate) fn clear_after(answer: Answer, work: &mut [u8])
    ensures { work.new ≡ cond (clears_checked answer) (cleared_work work.old) work.old }
{
    if clears_work(answer) {
        clear(work);
    }
}
