// The lengths that the lent buffers need (document 01, section 2).
ghost use Rattle.std.specs.Prelude.{◌≡◌, ◌&&◌, leb};
ghost use Rattle.table.specs.Calls.{plane_size};
ghost use Rattle.fill.specs.Work.{work_size};

use fill::WORK;
use table::PLANE;

// Whether values, care and work buffer of these lengths are enough.
pub(crate) fn lent_enough(values: usize, care: usize, work: usize) -> bool
    ensures { result ≡ (leb plane_size values && (leb plane_size care && leb work_size work)) }
{
    if values < PLANE {
        return false;
    }
    if care < PLANE {
        return false;
    }
    WORK <= work
}
