// What follows each block of a table: the type byte 0, and the masked checksum of the contents and the type.
ghost use Rattle.std.specs.Prelude.{◌≡◌, ◌+◌};
ghost use Rattle.codec.specs.Bytes.{part};
ghost use Rattle.checksum.specs.Checksum.{seal_of, trailer, trailer_stands};
ghost use Rattle.codec.specs.Put.{Wrote};

use codec::fixed::FixedInt;
use codec::put::{NoRoom, end_of};

// The masked checksum of some contents and the type byte 0.
fn seal(contents: &[u8]) -> u32
    ensures { result ≡ seal_of contents.now }
{
    crate::crc::mask_crc(crate::crc::extend(crate::crc::extend(0, contents), b"\x00"))
}

// Writes the trailer of the block of size bytes at a place of out, right after the block; the place after it.
pub fn put_trailer(out: &mut [u8], offset: usize, size: usize) -> Result<usize, NoRoom>
    ensures { Wrote out.old (offset + size) (trailer (part out.old offset size)) result out.new }
{
    let end = end_of(out.len(), offset, size)?;
    end_of(out.len(), end, 5)?;
    let sum = seal(&out[offset..end]);
    out[end] = 0;
    sum.write(out, end + 1)
}

// Whether the trailer of the block of size bytes at a place of t stands right after the block.
pub fn trailer_stands(t: &[u8], offset: usize, size: usize) -> bool
    ensures { result ≡ trailer_stands t.now offset size }
{
    let Ok(end) = end_of(t.len(), offset, size) else {
        return false;
    };
    if t.len() - end < 5 || t[end] != 0 {
        return false;
    }
    u32::read(t, end + 1) == Some(seal(&t[offset..end]))
}
