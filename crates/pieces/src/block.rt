// Blocks: built, checked, walked and searched.
ghost use Rattle.std.specs.Prelude.{◌≡◌, take};
ghost use Rattle.blocks.specs.Block.{tail_bytes};
ghost use Rattle.blocks.specs.Formed.{is_formed};
ghost use Rattle.blocks.specs.Search.{seek_in, first_in, in_order, any_order};
ghost use Rattle.block_builder.specs.Builder.{new_builder};
ghost use Rattle.block_reader.specs.Said.{kind_of, at_in, next_in};
ghost use Rattle.pieces.specs.Numbers.{ToldOut, WroteOut};
ghost use Rattle.pieces.specs.Blocks.{kind_in, AddsBlock, no_row, row_out, SaysOut};

use crate::numbers::{SalevoniSize, number_if};
use block_builder::block_builder::BlockBuilder;
use block_reader::block;
use block_reader::block::{BlockError, Entry, Kind, Which};
use codec::put::NoRoom;

// 0 and the block with an entry more, or 2 and the block as it was where the entry does not fit.
#[repr(C)]
#[derive(Clone, Copy)]
pub struct SalevoniBlockAdded {
    pub answer: u32,
    pub block: BlockBuilder,
}

// What reading a block answers, 0, 100 for none, 14 where no entry starts at the place, 10 for a malformed block; and the
// entry: where it starts, how many bytes its key has, where in the block its value starts and how many bytes that has. All of
// them are 0 without an entry.
#[repr(C)]
#[derive(Clone, Copy)]
pub struct SalevoniRow {
    pub answer: u32,
    pub start: usize,
    pub key_len: usize,
    pub value_at: usize,
    pub value_len: usize,
}

// A kind of block by its number.
fn kind_in(n: u32) -> Kind
    ensures { result ≡ kind_in n }
{
    match n {
        0 => Kind::Data,
        1 => Kind::Index,
        _ => Kind::Metaindex,
    }
}

// A number without an entry.
fn no_row(answer: u32) -> SalevoniRow
    ensures { result ≡ no_row answer }
{
    SalevoniRow {
        answer,
        start: 0,
        key_len: 0,
        value_at: 0,
        value_len: 0,
    }
}

// An answer of reading a block.
fn row_out(answer: Result<Option<Entry>, BlockError>) -> SalevoniRow
    ensures { result ≡ row_out answer }
{
    match answer {
        Ok(Some(e)) => SalevoniRow {
            answer: 0,
            start: e.start,
            key_len: e.key_len,
            value_at: e.value_at,
            value_len: e.value_len,
        },
        Ok(None) => no_row(100),
        Err(BlockError::NoPlace) => no_row(14),
        Err(BlockError::Bad) => no_row(10),
    }
}

// A block of no entries, with a restart every so many.
pub fn salevoni_block_start(interval: usize) -> BlockBuilder
    ensures { result ≡ new_builder interval }
{
    BlockBuilder::new(interval)
}

// Adds an entry to the block that starts at the front of out.
pub fn salevoni_block_add(
    block: BlockBuilder,
    out: &mut [u8],
    restarts: &mut [u32],
    key: &[u8],
    value: &[u8],
) -> SalevoniBlockAdded
    ensures { AddsBlock block out.old out.new restarts.old restarts.new key.now value.now result }
{
    let mut b = block;
    match b.add(out, 0, restarts, key, value) {
        Ok(()) => SalevoniBlockAdded {
            answer: 0,
            block: b,
        },
        Err(NoRoom) => SalevoniBlockAdded {
            answer: 2,
            block: b,
        },
    }
}

// Writes the restarts and their count behind the entries; the block is then the first size bytes of out.
pub fn salevoni_block_finish(block: BlockBuilder, out: &mut [u8], restarts: &[u32]) -> SalevoniSize
    ensures { WroteOut out.old block.bytes (tail_bytes (take block.restarts restarts.now)) result out.new }
{
    SalevoniSize::from(block.finish(out, 0, restarts))
}

// Whether some bytes are a well-formed block of a kind, 0 data, 1 index, any other metaindex: 0 or 10.
pub fn salevoni_block_check(block: &[u8], kind: u32) -> u32
    ensures { ToldOut (is_formed (kind_of (kind_in kind)) block.now) 0 10 result }
{
    number_if(block::is_formed(block, kind_in(kind)), 0, 10)
}

// The first entry of a block.
pub fn salevoni_block_first(block: &[u8], key: &mut [u8]) -> SalevoniRow
    ensures { SaysOut block.now first_in any_order key.old result key.new }
{
    row_out(block::first(block, key))
}

// The entry at a place of a block.
pub fn salevoni_block_at(block: &[u8], start: usize, key: &mut [u8]) -> SalevoniRow
    ensures { SaysOut block.now (at_in start) any_order key.old result key.new }
{
    row_out(block::by_place(block, start, Which::Here, key))
}

// The entry after the one at a place.
pub fn salevoni_block_after(block: &[u8], start: usize, key: &mut [u8]) -> SalevoniRow
    ensures { SaysOut block.now (next_in start) any_order key.old result key.new }
{
    row_out(block::by_place(block, start, Which::After, key))
}

// The first entry of a block that is not below a word and an edition.
pub fn salevoni_block_seek(block: &[u8], word: &[u8], edition: u64, key: &mut [u8]) -> SalevoniRow
    ensures { SaysOut block.now (seek_in (record { word = word.entry.now; edition = edition })) in_order key.old result key.new }
{
    row_out(block::seek(block, word, edition, key))
}
