// What a network file answers: its blocks read one after the other, each by its kind (document 02, 2.2).
ghost use Rattle.std.specs.Prelude.{◌≡◌, not, ◌&&◌, ◌<◌, eqb};
ghost use Rattle.block.specs.Block.{good_number};
ghost use Rattle.block.specs.Numbers.{number_limit};
ghost use Rattle.table.specs.declared.Refusal.TheVariants.{BadKind};
ghost use Rattle.table.specs.Answer.{unless, first_refusal};
ghost use Rattle.network_file.specs.File.{unused_heading, cells_block, cells_answer, network_file_answer};
ghost use Rattle.network_file.specs.Inner.Reader.{heading_fields, cells_tail, read_block};

use crate::numbers::file_count;
use crate::sizes::{blocks_for, carried};
use crate::{COUNT_AT, ROOTS_AT};
use block::block::{Block, whole_blocks};
use block::{BLOCK, CONTENT_AT};
use table::shape::shape_answer;
use table::{Answer, Refusal};

// The heading's content that must be zero, past its order and past its roots: 7, or 0.
#[tactic(auto, unfolding(crate::specs::File::unused_heading))]
fn unused_heading(file: &[u8]) -> Answer
    ensures { result ≡ unused_heading file.now }
{
    let heading = Block { file, number: 0 };
    let past_order = heading.unused_between(6 + heading.byte(4), COUNT_AT);
    if !past_order || !heading.unused_zero(ROOTS_AT + 2 * heading.byte(5)) {
        return Err(Refusal::BadContent);
    }
    Ok(0)
}

// The heading's n, m, order and unused content: 4, 5, 6, 7, or 0.
#[tactic(auto, unfolding(crate::specs::Inner::Reader::heading_fields))]
fn fields_answer(file: &[u8]) -> Answer
    ensures { result ≡ heading_fields file.now }
{
    shape_answer(file)?;
    unused_heading(file)
}

// A block of kind 4, a heading, which stands at block 0 only.
fn heading_answer(block: Block) -> Answer
    ensures { result ≡ unless (eqb block.entry.number 0 && good_number block.entry.file.now block.entry.number) BadKind
        (heading_fields block.entry.file.now) }
{
    if block.number != 0 || !block.good_number() {
        return Err(Refusal::BadKind);
    }
    fields_answer(block.file)
}

// A block of kind 5, cells, which stands at any block but 0.
#[tactic(auto, unfolding(crate::specs::Inner::Reader::cells_tail))]
fn cells_block(block: Block, count: usize) -> Answer
    requires { (count < number_limit) × (block.number < number_limit) }
    ensures { result ≡ unless (not (eqb block.entry.number 0) && good_number block.entry.file.now block.entry.number) BadKind
        (cells_tail count block.entry.file.now block.entry.number) }
{
    if block.number == 0 || !block.good_number() {
        return Err(Refusal::BadKind);
    }
    if !block.unused_zero(CONTENT_AT + 2 * carried(count, block.number)) {
        return Err(Refusal::BadContent);
    }
    Ok(0)
}

// The block reader: the check (2), then the kind decides how a block of a file of `count` cells is read.
#[tactic(auto, unfolding(crate::specs::Inner::Reader::read_block, crate::specs::Inner::Reader::kind_answer))]
fn block_answer(block: Block, count: usize) -> Answer
    requires { (count < number_limit) × (block.number < number_limit) }
    ensures { result ≡ read_block count block.entry.file.now block.entry.number }
{
    if !block.good_check() {
        return Err(Refusal::BadCheck);
    }
    let kind = block.byte(0);
    match kind {
        4 => heading_answer(block),
        5 => cells_block(block, count),
        _ => Err(Refusal::BadKind),
    }
}

// The first refusal among the blocks of cells, or 0.
fn blocks_answer(file: &[u8], count: usize, blocks: usize) -> Answer
    requires { (count < number_limit) × (blocks < number_limit) }
    ensures { result ≡ first_refusal (cells_block count file.now) 1 blocks }
{
    for k in 1..=blocks {
        block_answer(Block { file, number: k }, count)?;
    }
    Ok(0)
}

// The block total for the count, then each block of cells.
fn cells_answer(file: &[u8], count: usize) -> Answer
    requires { count < number_limit }
    ensures { result ≡ cells_answer file.now count }
{
    let blocks = blocks_for(count);
    if file.len() != BLOCK * (1 + blocks) {
        return Err(Refusal::BadLength);
    }
    blocks_answer(file, count, blocks)
}

// What a network file answers, in load's sequence. Block 0 is read before the count is known.
pub(crate) fn file_answer(file: &[u8]) -> Answer
    ensures { result ≡ network_file_answer file.now }
{
    if !whole_blocks(file) {
        return Err(Refusal::BadLength);
    }
    block_answer(Block { file, number: 0 }, 0)?;
    cells_answer(file, file_count(file))
}
