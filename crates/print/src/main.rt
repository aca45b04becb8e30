// Prints the network of the table on standard input (document 01, section 8).
#![tactic(auto)]

use fill::WORK;
use input::read_full;
use lent::ROOTS;
use printed::built::CELL_NUMBERS;
use printed::input::LONGEST;
use printed::output::{TEXT, print_table};
use std::io;
use table::PLANE;

fn main(rt: HostRuntime) -> io::Result<()> {
    // One byte more than the longest input, to see that there is more.
    let mut file = [0u8; LONGEST + 1];
    let mut values = [0u8; PLANE];
    let mut care = [0u8; PLANE];
    let mut work = [0u8; WORK];
    let mut roots = [0u16; ROOTS];
    let mut cells = [0u16; CELL_NUMBERS];
    let mut out = [0u8; TEXT];
    let length = read_full(&mut rt.stdin(), &mut file)?;
    let end = print_table(
        &file[..length],
        &mut values,
        &mut care,
        &mut work,
        &mut roots,
        &mut cells,
        &mut out,
    );
    rt.stdout().write_all(&out[..end])
}
