// Bytes, bits, words and numbers of lent slices, and the blocks of a file, whatever their kinds (document 01, section 1).
#![tactic(auto)]

pub mod bits;
pub mod block;
pub mod numbers;
pub mod unused;

// A block's bytes, where its content and its check begin, and the bytes and bits of the content; specs/Block.antt has the definitions.
pub const BLOCK: usize = 512;

pub const CONTENT_AT: usize = 4;

pub const CONTENT: usize = 506;

pub const CHECK_AT: usize = CONTENT_AT + CONTENT;

pub const CONTENT_BITS: usize = 8 * CONTENT;
