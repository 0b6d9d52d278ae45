// The filter block: the filters, where each starts, where the starts begin, and the base log.
ghost use Rattle.std.specs.Prelude.{◌≡◌, ◌∷◌, ◌+◌, ◌*◌, ◌-◌, ◌≤◌, ◌<◌, length, drop, replicate};
ghost use Rattle.codec.specs.Bytes.{part, number_of, numbers};
ghost use Rattle.codec.specs.Put.{Wrote};
ghost use Rattle.bloom.specs.Choice.{choice_of};
ghost use Rattle.filters.specs.FilterBlock.{rising, filter_formed, may_match, filter_block_of};
ghost use Rattle.filter_block.specs.Read.{StartsOf};
ghost use Rattle.filter_block.specs.Make.{groups_up_to, MadeFilters, Counted};

use bloom::filter::{create_filter, filter_bytes, key_may_match};
use codec::fixed::{FixedInt, write_u32s};
use codec::put::{NoRoom, end_of, put_bytes};

// The number of 4 bytes at a place.
fn number(s: &[u8], at: usize) -> usize
    requires { at + 4 ≤ length s.now }
    ensures { result ≡ number_of (part s.now at 4) }
{
    u32::from_le_bytes([s[at], s[at + 1], s[at + 2], s[at + 3]]) as usize
}

// Where the starts of the filters begin, how many there are, and the base log.
#[derive(Clone, Copy)]
struct Starts {
    array: usize,
    count: usize,
    base: u32,
}

// What a filter block says of its starts.
fn read_starts(block: &[u8]) -> Option<Starts>
    ensures { StartsOf block.now result }
{
    let end = block.len().checked_sub(5)?;
    let array = number(block, end);
    let base = block[end + 4];
    if end < array || base > 31 {
        return None;
    }
    Some(Starts {
        array,
        count: (end - array) / 4,
        base: u32::from(base),
    })
}

// Whether the data block that starts at an offset may hold a key of that hash, by the bytes of a filter block: any bytes.
pub fn may_match(block: &[u8], offset: usize, hash: u32) -> bool
    ensures { result ≡ may_match block.now offset hash }
{
    let Some(starts) = read_starts(block) else {
        return true;
    };
    let i = offset >> starts.base;
    if starts.count <= i {
        return true;
    }
    let from = number(block, starts.array + 4 * i);
    let to = number(block, starts.array + 4 * (i + 1));
    if to < from || starts.array < to {
        return true;
    }
    key_may_match(&block[from..to], hash)
}

// Whether count starts from array on rise or stay, within the filters.
fn starts_rise(block: &[u8], array: usize, count: usize) -> bool
    requires { array + 4 * count ≤ length block.now }
    ensures { result ≡ rising 0 (numbers count (drop array block.now)) array }
{
    let mut low = 0;
    for i in 0..count {
        let x = number(block, array + 4 * i);
        if x < low {
            return false;
        }
        low = x;
    }
    low <= array
}

// Whether some bytes are a well-formed filter block.
pub fn is_formed(block: &[u8]) -> bool
    ensures { result ≡ filter_formed block.now }
{
    let Some(starts) = read_starts(block) else {
        return false;
    };
    (block.len() - 5 - starts.array) % 4 == 0 && starts_rise(block, starts.array, starts.count)
}

// How many bytes the filters have, and how many there are.
#[derive(Clone, Copy, Debug, PartialEq, Eq)]
pub struct Made {
    pub bytes: usize,
    pub made: usize,
}

// The counts with more bytes and more starts, if these fit their runs, and each start 32 bits.
fn counted(
    room: usize,
    bytes: usize,
    more: usize,
    slots: usize,
    made: usize,
    count: usize,
) -> Result<Made, NoRoom>
    ensures { Counted room bytes more slots made count result }
{
    let bytes = end_of(room, bytes, more)?;
    let made = end_of(slots, made, count)?;
    if bytes > u32::MAX as usize {
        return Err(NoRoom);
    }
    Ok(Made { bytes, made })
}

// Writes starts: the first, and the next one for all others.
fn write_starts(starts: &mut [u32], first: u32, next: u32)
    requires { 0 < length starts.old }
    ensures { starts.new ≡ first ∷ replicate (length starts.old - 1) next }
{
    starts.fill(next);
    starts[0] = first;
}

// Makes filters until there are n: the first takes all hashes, the others are empty. The filters made before have so many
// bytes, and there are so many. Their bytes go behind those, and where each starts into offsets.
pub fn make_filters(
    choice: Option<u32>,
    hashes: &[u32],
    n: usize,
    filters: &mut [u8],
    bytes: usize,
    offsets: &mut [u32],
    made: usize,
) -> Result<Made, NoRoom>
    ensures { MadeFilters (choice_of choice) (groups_up_to made n hashes.now) bytes made result filters.old filters.new offsets.old offsets.new }
{
    if n <= made {
        return counted(filters.len(), bytes, 0, offsets.len(), made, 0);
    }
    let more = filter_bytes(choice, hashes.len());
    let after = counted(filters.len(), bytes, more, offsets.len(), made, n - made)?;
    create_filter(choice, hashes, filters, bytes)?;
    write_starts(&mut offsets[made..n], bytes as u32, after.bytes as u32);
    Ok(after)
}

// Writes the filter block of some filters' bytes and their starts at a place of out.
pub fn finish(out: &mut [u8], at: usize, filters: &[u8], offsets: &[u32]) -> Result<usize, NoRoom>
    ensures { Wrote out.old at (filter_block_of filters.now offsets.now) result out.new }
{
    let array = end_of(out.len(), at, filters.len())?;
    let end = end_of(out.len(), array, 4 * offsets.len())?;
    end_of(out.len(), end, 5)?;
    put_bytes(out, at, filters)?;
    write_u32s(out, array, offsets)?;
    ((filters.len() % 4294967296) as u32).write(out, end)?;
    out[end + 4] = 11;
    Ok(end + 5)
}
