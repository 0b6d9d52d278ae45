// Blocks: built, checked, walked and searched.
ghost use Rattle.std.specs.Prelude.{◌≡◌, take};
ghost use Rattle.blocks.specs.Block.{tail_bytes};
ghost use Rattle.blocks.specs.Formed.{is_formed};
ghost use Rattle.blocks.specs.Search.{seek_in, first_in, in_order, any_order};
ghost use Rattle.block_builder.specs.Builder.{new_builder};
ghost use Rattle.block_reader.specs.Said.{kind_of, at_in, next_in};
ghost use Rattle.pieces.specs.Numbers.{ToldOut, WroteOut};
ghost use Rattle.pieces.specs.Blocks.{kind_in, AddsBlock, SaysOut};

use block_builder::block_builder::BlockBuilder;
use pieces::block::{SalevoniBlockAdded, SalevoniRow};
use pieces::numbers::SalevoniSize;

// A block of no entries, with a restart every so many.
#[unsafe(no_mangle)]
pub extern "C" fn salevoni_block_start(interval: usize) -> BlockBuilder
    ensures { result ≡ new_builder interval }
{
    pieces::block::salevoni_block_start(interval)
}

// Adds an entry to the block that starts at the front of out.
#[unsafe(no_mangle)]
pub extern "C" fn salevoni_block_add(
    block: BlockBuilder,
    out: &mut [u8],
    restarts: &mut [u32],
    key: &[u8],
    value: &[u8],
) -> SalevoniBlockAdded
    ensures { AddsBlock block out.old out.new restarts.old restarts.new key.now value.now result }
{
    pieces::block::salevoni_block_add(block, out, restarts, key, value)
}

// Writes the restarts and their count behind the entries; the block is then the first size bytes of out.
#[unsafe(no_mangle)]
pub extern "C" fn salevoni_block_finish(
    block: BlockBuilder,
    out: &mut [u8],
    restarts: &[u32],
) -> SalevoniSize
    ensures { WroteOut out.old block.bytes (tail_bytes (take block.restarts restarts.now)) result out.new }
{
    pieces::block::salevoni_block_finish(block, out, restarts)
}

// Whether some bytes are a well-formed block of a kind, 0 data, 1 index, any other metaindex: 0 or 10.
#[unsafe(no_mangle)]
pub extern "C" fn salevoni_block_check(block: &[u8], kind: u32) -> u32
    ensures { ToldOut (is_formed (kind_of (kind_in kind)) block.now) 0 10 result }
{
    pieces::block::salevoni_block_check(block, kind)
}

// The first entry of a block.
#[unsafe(no_mangle)]
pub extern "C" fn salevoni_block_first(block: &[u8], key: &mut [u8]) -> SalevoniRow
    ensures { SaysOut block.now first_in any_order key.old result key.new }
{
    pieces::block::salevoni_block_first(block, key)
}

// The entry at a place of a block.
#[unsafe(no_mangle)]
pub extern "C" fn salevoni_block_at(block: &[u8], start: usize, key: &mut [u8]) -> SalevoniRow
    ensures { SaysOut block.now (at_in start) any_order key.old result key.new }
{
    pieces::block::salevoni_block_at(block, start, key)
}

// The entry after the one at a place.
#[unsafe(no_mangle)]
pub extern "C" fn salevoni_block_after(block: &[u8], start: usize, key: &mut [u8]) -> SalevoniRow
    ensures { SaysOut block.now (next_in start) any_order key.old result key.new }
{
    pieces::block::salevoni_block_after(block, start, key)
}

// The first entry of a block that is not below a word and an edition.
#[unsafe(no_mangle)]
pub extern "C" fn salevoni_block_seek(
    block: &[u8],
    word: &[u8],
    edition: u64,
    key: &mut [u8],
) -> SalevoniRow
    ensures { SaysOut block.now (seek_in (record { word = word.entry.now; edition = edition })) in_order key.old result key.new }
{
    pieces::block::salevoni_block_seek(block, word, edition, key)
}
