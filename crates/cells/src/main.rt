// Writes the network file of the table on standard input to standard output (document 02, 2.2).
#![tactic(auto)]

use filed::output::write_network_file;
use fill::WORK;
use input::read_full;
use lent::ROOTS;
use network_file::FILE;
use printed::built::CELL_NUMBERS;
use printed::input::LONGEST;
use std::io;
use table::PLANE;

fn main(rt: HostRuntime) -> io::Result<()> {
    // One byte more than the longest input, to see that there is more.
    let mut file = [0u8; LONGEST + 1];
    let mut values = [0u8; PLANE];
    let mut care = [0u8; PLANE];
    let mut work = [0u8; WORK];
    let mut roots = [0u16; ROOTS];
    let mut cells = [0u16; CELL_NUMBERS];
    let mut out = [0u8; FILE];
    let length = read_full(&mut rt.stdin(), &mut file)?;
    let end = write_network_file(
        &file[..length],
        &mut values,
        &mut care,
        &mut work,
        &mut roots,
        &mut cells,
        &mut out,
    );
    rt.stdout().write_all(&out[..end])
}
