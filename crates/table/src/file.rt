// What a table file answers: its blocks read one after the other, each by its kind (document 01, sections 1 and 6).
ghost use Rattle.std.specs.Prelude.{◌≡◌, ◌&&◌, ◌+◌, ◌*◌, ◌-◌, ◌/◌, ◌≤◌, ◌<◌, eqb};
ghost use Rattle.diagram.specs.Networks.Bound.{most_variables, most_outputs};
ghost use Rattle.block.specs.Block.{content_bits, good_number};
ghost use Rattle.table.specs.declared.Refusal.TheVariants.{BadKind};
ghost use Rattle.table.specs.Answer.{unless};
ghost use Rattle.table.specs.File.{fields_answer, blocks_answer, streams_answer, file_answer};
ghost use Rattle.table.specs.Inner.Reader.{carried_answer, stream_answer, read_block_answer};
ghost use Rattle.table.specs.Sizes.{most_bits, most_blocks};

use crate::shape::shape_answer;
use crate::{Answer, Refusal};
use block::block::{Block, whole_blocks};
use block::{BLOCK, CONTENT_BITS};

// The blocks that a stream of so many bits takes.
pub(crate) fn blocks_for(bits: usize) -> usize
    requires { bits ≤ most_bits }
    ensures { result ≡ (bits + (content_bits - 1)) / content_bits }
{
    bits.div_ceil(CONTENT_BITS)
}

// The heading's n, m, order and unused content: 4, 5, 6, 7, or 0.
#[tactic(auto, unfolding(crate::specs::File::fields_answer))]
fn fields_answer(file: &[u8]) -> Answer
    ensures { result ≡ fields_answer file.now }
{
    shape_answer(file)?;
    let heading = Block { file, number: 0 };
    if !heading.unused_zero(6 + heading.byte(4)) {
        return Err(Refusal::BadContent);
    }
    Ok(0)
}

// The bits of a stream that are left at its block j.
fn bits_left(bits: usize, j: usize) -> usize
    requires { j < 2 * most_blocks }
    ensures { result ≡ bits - content_bits * j }
{
    bits.saturating_sub(CONTENT_BITS * j)
}

// A block of a stream with so many of its bits left: 3 for byte 1 and its number, 7, or 0.
#[tactic(auto, unfolding(crate::specs::Inner::Reader::carried_answer))]
fn carried_answer(block: Block, left: usize) -> Answer
    ensures { result ≡ carried_answer block.entry.file.now block.entry.number left }
{
    if !block.good_number() {
        return Err(Refusal::BadKind);
    }
    if !block.unused_bits_zero(left) {
        return Err(Refusal::BadContent);
    }
    Ok(0)
}

// A block of kind 1, a heading, which stands at block 0 only. Crate network_file has its own: a generic one with a closure is no plainer.
fn heading_answer(block: Block) -> Answer
    ensures { result ≡ unless (eqb block.entry.number 0 && good_number block.entry.file.now block.entry.number) BadKind
        (fields_answer block.entry.file.now) }
{
    if block.number != 0 || !block.good_number() {
        return Err(Refusal::BadKind);
    }
    fields_answer(block.file)
}

// A block of a stream of `bits` bits, which stands at the `blocks` blocks behind block `before` only.
#[tactic(auto, unfolding(crate::specs::Inner::Reader::stream_answer))]
fn stream_answer(block: Block, bits: usize, blocks: usize, before: usize) -> Answer
    requires { (block.number ≤ 2 * blocks) × (before ≤ blocks) × (blocks ≤ most_blocks) }
    ensures { result ≡ stream_answer bits blocks before block.entry.file.now block.entry.number }
{
    if block.number <= before || before + blocks < block.number {
        return Err(Refusal::BadKind);
    }
    carried_answer(block, bits_left(bits, block.number - 1 - before))
}

// The block reader: the check (2), then the kind decides how the block is read, where a stream of `bits` bits takes `blocks` blocks.
#[tactic(auto, unfolding(crate::specs::Inner::Reader::read_block_answer, crate::specs::Inner::Reader::kind_answer, crate::specs::Inner::Reader::stream_answer, crate::specs::Inner::Reader::carried_answer, crate::specs::File::kind_of, crate::specs::File::tail_answer))]
fn block_answer(block: Block, bits: usize, blocks: usize) -> Answer
    requires { (block.number ≤ 2 * blocks) × (blocks ≤ most_blocks) }
    ensures { result ≡ read_block_answer bits blocks block.entry.file.now block.entry.number }
{
    if !block.good_check() {
        return Err(Refusal::BadCheck);
    }
    let kind = block.byte(0);
    match kind {
        1 => heading_answer(block),
        2 => stream_answer(block, bits, blocks, 0),
        3 => stream_answer(block, bits, blocks, blocks),
        _ => Err(Refusal::BadKind),
    }
}

// The first refusal among the further blocks, or 0. The loop with `?` is as short as a call with a closure.
fn blocks_answer(file: &[u8], bits: usize, blocks: usize) -> Answer
    requires { blocks ≤ most_blocks }
    ensures { result ≡ blocks_answer bits blocks file.now 1 (2 * blocks) }
{
    for k in 1..=2 * blocks {
        block_answer(Block { file, number: k }, bits, blocks)?;
    }
    Ok(0)
}

// The block count, then each further block.
#[tactic(auto, unfolding(crate::specs::File::streams_answer, crate::specs::File::stream_blocks))]
fn streams_answer(file: &[u8], n: usize, m: usize) -> Answer
    requires { (n ≤ most_variables) × (m ≤ most_outputs) }
    ensures { result ≡ streams_answer file.now n m }
{
    let bits = m << n;
    let blocks = blocks_for(bits);
    if file.len() != BLOCK * (1 + 2 * blocks) {
        return Err(Refusal::BadLength);
    }
    blocks_answer(file, bits, blocks)
}

// What a file answers, by section 6's sequence. Block 0 is read before it is known what a stream takes.
#[tactic(auto, unfolding(crate::specs::File::file_answer))]
pub(crate) fn file_answer(file: &[u8]) -> Answer
    ensures { result ≡ file_answer file.now }
{
    if !whole_blocks(file) {
        return Err(Refusal::BadLength);
    }
    let heading = Block { file, number: 0 };
    block_answer(heading, 0, 0)?;
    streams_answer(file, heading.byte(4), heading.byte(5))
}
