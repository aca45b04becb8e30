// Numbers of a lent slice: cells, roots and rows are lent as 16-bit numbers (document 01, section 2).
ghost use Rattle.std.specs.Prelude.{◌≡◌, ◌<◌, ltb, get_or};
ghost use Rattle.lists.specs.Lists.{all};
ghost use Rattle.block.specs.Numbers.{number_limit};

// Number i, or 0 past the end.
pub fn lent_number(numbers: &[u16], i: usize) -> usize
    ensures { (result ≡ get_or numbers.now i 0) × (result < number_limit) }
{
    numbers.get(i).copied().unwrap_or(0) as usize
}

// Whether every number is below a limit. A loop: of a chain the compiler makes slower steps.
pub fn all_below(numbers: &[u16], limit: usize) -> bool
    ensures { result ≡ all (λ x. ltb x limit) numbers.now }
{
    for x in numbers {
        let number = *x as usize;
        if limit <= number {
            return false;
        }
    }
    true
}
