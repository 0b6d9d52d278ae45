// Filters and the filter block: made, checked and asked.
ghost use Rattle.std.specs.Prelude.{◌≡◌};
ghost use Rattle.filters.specs.Filter.{hash, probes, filter_may};
ghost use Rattle.filters.specs.FilterBlock.{filter_for, filter_formed, may_match, filter_block_of};
ghost use Rattle.filter_block.specs.Make.{groups_up_to};
ghost use Rattle.pieces.specs.Numbers.{ToldOut, WroteOut};
ghost use Rattle.pieces.specs.Filters.{bloom_of, MadeOut};

use crate::numbers::{SalevoniSize, number_if};
use codec::put::NoRoom;
use filter_block::filter_block::{Made, make_filters};

// 0 and how many bytes the filters have now and how many there are, or 2 and zeros without room.
#[repr(C)]
#[derive(Clone, Copy)]
pub struct SalevoniFilters {
    pub answer: u32,
    pub bytes: usize,
    pub made: usize,
}

// What making filters answers.
impl From<Result<Made, NoRoom>> for SalevoniFilters {
    ghost use Rattle.pieces.specs.Filters.{made_out};

    ghost from_gives = { λ r x. x ≡ made_out r };

    fn from(r: Result<Made, NoRoom>) -> SalevoniFilters {
        match r {
            Ok(m) => SalevoniFilters {
                answer: 0,
                bytes: m.bytes,
                made: m.made,
            },
            Err(NoRoom) => SalevoniFilters {
                answer: 2,
                bytes: 0,
                made: 0,
            },
        }
    }
}

// The hash of some bytes.
pub fn salevoni_hash(bytes: &[u8]) -> u32
    ensures { result ≡ hash bytes.now }
{
    bloom::filter::bloom_hash(bytes)
}

// How many probes a filter of so many bits per key takes.
pub fn salevoni_probes(bits: u32) -> u32
    ensures { result ≡ probes bits }
{
    bloom::filter::probe_count(bits)
}

// The filter of some hashes at so many bits per key.
pub fn salevoni_filter(bits: u32, hashes: &[u32], out: &mut [u8]) -> SalevoniSize
    ensures { WroteOut out.old 0 (filter_for (bloom_of bits) hashes.now) result out.new }
{
    SalevoniSize::from(bloom::filter::create_filter(Some(bits), hashes, out, 0))
}

// Makes filters until there are count, the first of all hashes, the others empty, behind bytes bytes of made filters.
pub fn salevoni_filter_block_add(
    bits: u32,
    hashes: &[u32],
    count: usize,
    filters: &mut [u8],
    bytes: usize,
    offsets: &mut [u32],
    made: usize,
) -> SalevoniFilters
    ensures { MadeOut (bloom_of bits) (groups_up_to made count hashes.now) bytes made result filters.old filters.new offsets.old offsets.new }
{
    SalevoniFilters::from(make_filters(Some(bits), hashes, count, filters, bytes, offsets, made))
}

// The filter block of filters and their starts.
pub fn salevoni_filter_block_finish(filters: &[u8], offsets: &[u32], out: &mut [u8]) -> SalevoniSize
    ensures { WroteOut out.old 0 (filter_block_of filters.now offsets.now) result out.new }
{
    SalevoniSize::from(filter_block::filter_block::finish(out, 0, filters, offsets))
}

// Whether a filter lets a hash through: 1 or 0.
pub fn salevoni_filter_may(filter: &[u8], hash: u32) -> u32
    ensures { ToldOut (filter_may filter.now hash) 1 0 result }
{
    number_if(bloom::filter::key_may_match(filter, hash), 1, 0)
}

// Whether a filter block lets the data block at an offset hold a hash: 1 or 0.
pub fn salevoni_filter_block_may(block: &[u8], offset: usize, hash: u32) -> u32
    ensures { ToldOut (may_match block.now offset hash) 1 0 result }
{
    let may = filter_block::filter_block::may_match(block, offset, hash);
    number_if(may, 1, 0)
}

// Whether some bytes are a well-formed filter block: 0 or 12.
pub fn salevoni_filter_block_check(block: &[u8]) -> u32
    ensures { ToldOut (filter_formed block.now) 0 12 result }
{
    number_if(filter_block::filter_block::is_formed(block), 0, 12)
}
