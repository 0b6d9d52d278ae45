// Filters and the filter block: made, checked and asked.
ghost use Rattle.std.specs.Prelude.{◌≡◌};
ghost use Rattle.filters.specs.Filter.{hash, probes, filter_may};
ghost use Rattle.filters.specs.FilterBlock.{filter_for, filter_formed, may_match, filter_block_of};
ghost use Rattle.filter_block.specs.Make.{groups_up_to};
ghost use Rattle.pieces.specs.Numbers.{ToldOut, WroteOut};
ghost use Rattle.pieces.specs.Filters.{bloom_of, MadeOut};

use pieces::filter::SalevoniFilters;
use pieces::numbers::SalevoniSize;

// The hash of some bytes.
#[unsafe(no_mangle)]
pub extern "C" fn salevoni_hash(bytes: &[u8]) -> u32
    ensures { result ≡ hash bytes.now }
{
    pieces::filter::salevoni_hash(bytes)
}

// How many probes a filter of so many bits per key takes.
#[unsafe(no_mangle)]
pub extern "C" fn salevoni_probes(bits: u32) -> u32
    ensures { result ≡ probes bits }
{
    pieces::filter::salevoni_probes(bits)
}

// The filter of some hashes at so many bits per key.
#[unsafe(no_mangle)]
pub extern "C" fn salevoni_filter(bits: u32, hashes: &[u32], out: &mut [u8]) -> SalevoniSize
    ensures { WroteOut out.old 0 (filter_for (bloom_of bits) hashes.now) result out.new }
{
    pieces::filter::salevoni_filter(bits, hashes, out)
}

// Makes filters until there are count, the first of all hashes, the others empty, behind bytes bytes of made filters.
#[unsafe(no_mangle)]
pub extern "C" fn salevoni_filter_block_add(
    bits: u32,
    hashes: &[u32],
    count: usize,
    filters: &mut [u8],
    bytes: usize,
    offsets: &mut [u32],
    made: usize,
) -> SalevoniFilters
    ensures { MadeOut (bloom_of bits) (groups_up_to made count hashes.now) bytes made result filters.old filters.new offsets.old offsets.new }
{
    pieces::filter::salevoni_filter_block_add(bits, hashes, count, filters, bytes, offsets, made)
}

// The filter block of filters and their starts.
#[unsafe(no_mangle)]
pub extern "C" fn salevoni_filter_block_finish(
    filters: &[u8],
    offsets: &[u32],
    out: &mut [u8],
) -> SalevoniSize
    ensures { WroteOut out.old 0 (filter_block_of filters.now offsets.now) result out.new }
{
    pieces::filter::salevoni_filter_block_finish(filters, offsets, out)
}

// Whether a filter lets a hash through: 1 or 0.
#[unsafe(no_mangle)]
pub extern "C" fn salevoni_filter_may(filter: &[u8], hash: u32) -> u32
    ensures { ToldOut (filter_may filter.now hash) 1 0 result }
{
    pieces::filter::salevoni_filter_may(filter, hash)
}

// Whether a filter block lets the data block at an offset hold a hash: 1 or 0.
#[unsafe(no_mangle)]
pub extern "C" fn salevoni_filter_block_may(block: &[u8], offset: usize, hash: u32) -> u32
    ensures { ToldOut (may_match block.now offset hash) 1 0 result }
{
    pieces::filter::salevoni_filter_block_may(block, offset, hash)
}

// Whether some bytes are a well-formed filter block: 0 or 12.
#[unsafe(no_mangle)]
pub extern "C" fn salevoni_filter_block_check(block: &[u8]) -> u32
    ensures { ToldOut (filter_formed block.now) 0 12 result }
{
    pieces::filter::salevoni_filter_block_check(block)
}
