// Reading a table file: the whole file is found good before a byte is written (document 01, sections 1, 2 and 6).
ghost use Rattle.std.specs.Prelude.{◌≡◌, ◌*◌, ◌≤◌, ◌<◌, length};
ghost use Rattle.lists.specs.Written.{over};
ghost use Rattle.table.specs.State.{unloaded_state};
ghost use Rattle.table.specs.File.{stream_byte};
ghost use Rattle.table.specs.Calls.{plane_size, load_outcome, load_values, load_care};
ghost use Rattle.table.specs.Sizes.{most_blocks};

use crate::file::{blocks_for, file_answer};
use crate::order::read_order;
use crate::{Done, Outcome, PLANE, Refusal, Stage, State};
use block::bits::byte_at;
use block::block::Block;
use block::{BLOCK, CONTENT, CONTENT_AT};
use diagram::VARIABLES;

// Byte i of the stream that block `first` begins, or 0 past its blocks.
#[tactic(auto, unfolding(crate::specs::File::stream_byte))]
fn stream_byte(file: &[u8], first: usize, blocks: usize, i: usize) -> u8
    requires { (first ≤ 2 * most_blocks) × (blocks ≤ most_blocks) × (i < plane_size) }
    ensures { result ≡ stream_byte file.now first blocks i }
{
    if i < CONTENT * blocks {
        byte_at(
            file,
            BLOCK * (first + i / CONTENT) + (CONTENT_AT + i % CONTENT),
        )
    } else {
        0
    }
}

// Writes the stream that block `first` begins, and zeros to the plane's end.
#[tactic(auto, unfolding(crate::specs::Calls::plane_size))]
fn write_plane(file: &[u8], first: usize, blocks: usize, plane: &mut [u8])
    requires { (first ≤ 2 * most_blocks) × (blocks ≤ most_blocks) × (plane_size ≤ length plane.old) }
    ensures { plane.new ≡ over (stream_byte file.now first blocks) plane_size plane.old }
{
    for (i, x) in plane[..PLANE].iter_mut().enumerate() {
        *x = stream_byte(file, first, blocks, i);
    }
}

// The state before any load.
pub fn unloaded() -> State
    ensures { result ≡ unloaded_state }
{
    State {
        n: 0,
        m: 0,
        order: [0; VARIABLES],
        count: 0,
        stage: Stage::Nothing,
    }
}

// Loads a table file. Refuses with 10, then by the file; a refusal leaves both planes as they were.
pub fn load(file: &[u8], values: &mut [u8], care: &mut [u8]) -> Outcome
    ensures outcome { result ≡ load_outcome file.now values.old care.old }
    ensures values { values.new ≡ load_values file.now values.old care.old }
    ensures care { care.new ≡ load_care file.now values.old care.old }
{
    if values.len() < PLANE {
        return Err(Refusal::ShortBuffer);
    }
    if care.len() < PLANE {
        return Err(Refusal::ShortBuffer);
    }
    let value = file_answer(file)?;
    let heading = Block { file, number: 0 };
    let n = heading.byte(4);
    let m = heading.byte(5);
    let blocks = blocks_for(m << n);
    let order = read_order(file, n);
    write_plane(file, 1, blocks, values);
    write_plane(file, 1 + blocks, blocks, care);
    Ok(Done {
        value,
        state: State {
            n,
            m,
            order,
            stage: Stage::Table,
            ..unloaded()
        },
    })
}
