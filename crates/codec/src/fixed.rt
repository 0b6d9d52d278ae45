// Numbers of a fixed width, the least byte first.
ghost use Rattle.std.specs.Prelude.{◌≡◌, ◌+◌, ◌*◌, ℕ, Option, option_map, length};
ghost use Rattle.codec.specs.Answers.{given};
ghost use Rattle.codec.specs.Bytes.{bytes_of, part, number_at, fours};
ghost use Rattle.codec.specs.Put.{Wrote};
ghost use Rattle.codec.specs.Fixed.{ChunkAt};

use crate::put::{NoRoom, end_of, put_bytes};

// The N bytes at a place of s.
fn chunk_at<const N: usize>(s: &[u8], at: usize) -> Option<[u8; N]>
    ensures { ChunkAt N s.now at result }
{
    let (bytes, _) = s.get(at..)?.split_first_chunk()?;
    Some(*bytes)
}

// A number of a fixed width in bytes.
pub trait FixedInt {
    ghost width: { ℕ };

    ghost value: { Self → ℕ };

    // The number at a place of s.
    fn read(s: &[u8], at: usize) -> Option<Self>
        ensures { option_map value result ≡ given (number_at width s.now at) };

    // Writes the number at a place of out; the place after it.
    fn write(self, out: &mut [u8], at: usize) -> Result<usize, NoRoom>
        ensures { Wrote out.old at (bytes_of width (value self)) result out.new };
}

impl FixedInt for u32 {
    ghost width = { 4 };

    ghost value = { λ x. x };

    #[tactic(auto, using(crate::proofs::FixedLaws::chunk_none))]
    fn read(s: &[u8], at: usize) -> Option<u32>
        ensures { result ≡ given (number_at 4 s.now at) }
    {
        Some(u32::from_le_bytes(chunk_at(s, at)?))
    }

    fn write(self, out: &mut [u8], at: usize) -> Result<usize, NoRoom> {
        put_bytes(out, at, &u32::to_le_bytes(self))
    }
}

impl FixedInt for u64 {
    ghost width = { 8 };

    ghost value = { λ x. x };

    #[tactic(auto, using(crate::proofs::FixedLaws::chunk_none))]
    fn read(s: &[u8], at: usize) -> Option<u64>
        ensures { result ≡ given (number_at 8 s.now at) }
    {
        Some(u64::from_le_bytes(chunk_at(s, at)?))
    }

    fn write(self, out: &mut [u8], at: usize) -> Result<usize, NoRoom> {
        put_bytes(out, at, &u64::to_le_bytes(self))
    }
}

// Writes the numbers of xs, 4 bytes each, at a place of out; the place after them.
pub fn write_u32s(out: &mut [u8], at: usize, xs: &[u32]) -> Result<usize, NoRoom>
    ensures { Wrote out.old at (fours xs.now) result out.new }
{
    if out.len() < at {
        return Err(NoRoom);
    }
    if (out.len() - at) / 4 < xs.len() {
        return Err(NoRoom);
    }
    let mut end = at;
    for x in xs {
        end = x.write(out, end)?;
    }
    Ok(end)
}
