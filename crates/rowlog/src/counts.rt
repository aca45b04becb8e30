// The lent counts: their sum, whether there is room for more, and rows counted into them.
ghost use Rattle.std.specs.Prelude.{◌≡◌, ℕ, ◌+◌, ◌≤◌, ◌<◌, ◌^◌, T, ltb, leb, length, get_or};
ghost use Rattle.lists.specs.Lists.{all};
ghost use Rattle.lists.specs.Sums.{sum_below};
ghost use Rattle.lists.specs.Written.{over};
ghost use Rattle.diagram.specs.Networks.Bound.{most_variables};
ghost use Rattle.rowlog.specs.Log.{most_records, seen};

// How many records there may be; specs/Log.antt has the definition, `most_records`.
const RECORDS: usize = 4294967295;

// Count i, or 0 past the end.
pub(crate) fn lent_count(counts: &[u32], i: usize) -> usize
    ensures { (result ≡ get_or counts.now i 0) × (result ≤ most_records) }
{
    counts.get(i).copied().unwrap_or(0) as usize
}

// The sum of counts, as few as the rows are.
fn sum_of(counts: &[u32]) -> usize
    requires { length counts.now ≤ 2 ^ most_variables }
    ensures { result ≡ sum_below (λ i. get_or counts.now i 0) (length counts.now) }
{
    counts.iter().map(|count| *count as usize).sum()
}

// Whether the first `end` counts and so many records more are not too many together.
pub(crate) fn has_room(counts: &[u32], end: usize, more: usize) -> bool
    requires { end ≤ 2 ^ most_variables }
    ensures { result ≡ leb (sum_below (λ i. get_or counts.now i 0) end + more) most_records }
{
    let sum = sum_of(&counts[..end.min(counts.len())]);
    sum <= RECORDS && more <= RECORDS - sum
}

// Counts each row of the list.
pub(crate) fn count_rows(rows: &[u16], counts: &mut [u32])
    requires rows_within { T (all (λ row. ltb row (length counts.old)) rows.now) }
    requires counts_fit { (j : ℕ) → j < length rows.now → seen rows.now counts.old (get_or rows.now j 0) ≤ most_records }
    ensures { counts.new
        ≡ over (seen rows.now counts.old) (length counts.old) counts.old }
{
    for &row in rows {
        counts[row as usize] += 1;
    }
}
