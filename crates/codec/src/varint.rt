// Varints: seven bits to a byte, the least first, the top bit set on every byte but the last; at most ten bytes, below 2^64.
// Padded forms are read.
ghost use Rattle.std.specs.Prelude.{◌≡◌, length};
ghost use Rattle.codec.specs.Answers.{given};
ghost use Rattle.codec.specs.Varint.{varint, varint_bytes};
ghost use Rattle.codec.specs.Put.{Wrote};

use crate::put::{NoRoom, end_of};

// A number, and how many bytes it took.
#[derive(Clone, Copy, Debug, PartialEq, Eq)]
pub struct Varint {
    pub value: usize,
    pub size: usize,
}

// The number that starts s.
pub fn read_varint(s: &[u8]) -> Option<Varint>
    ensures { result ≡ given (varint s.now) }
{
    let mut value: usize = 0;
    let mut unit: usize = 1;
    for i in 0..9 {
        let b = *s.get(i)? as usize;
        if b < 128 {
            return Some(Varint {
                value: value + b * unit,
                size: i + 1,
            });
        }
        value += (b - 128) * unit;
        unit = unit * 128;
    }
    let last = *s.get(9)? as usize;
    if last < 2 {
        Some(Varint {
            value: value + last * unit,
            size: 10,
        })
    } else {
        None
    }
}

// How many bytes the varint of x has.
pub fn varint_len(x: usize) -> usize
    ensures { result ≡ length (varint_bytes x) }
{
    let mut left = x;
    for n in 1..10 {
        if left < 128 {
            return n;
        }
        left = left / 128;
    }
    10
}

// Writes the varint of x at a place of out; the place after it.
pub fn write_varint(out: &mut [u8], at: usize, x: usize) -> Result<usize, NoRoom>
    ensures { Wrote out.old at (varint_bytes x) result out.new }
{
    let end = end_of(out.len(), at, varint_len(x))?;
    let mut left = x;
    for i in at..end - 1 {
        out[i] = (left % 128 + 128) as u8;
        left = left / 128;
    }
    out[end - 1] = left as u8;
    Ok(end)
}
