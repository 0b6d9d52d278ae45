// A block handle: where a block starts in a table and how many bytes it has, two varints.
ghost use Rattle.std.specs.Prelude.{◌≡◌};
ghost use Rattle.codec.specs.Answers.{given};
ghost use Rattle.codec.specs.Varint.{handle, one_handle, handle_bytes};
ghost use Rattle.codec.specs.Put.{Wrote};

use crate::put::{NoRoom, end_of};
use crate::varint::{read_varint, varint_len, write_varint};

// Where a block stands.
#[derive(Clone, Copy, Debug, PartialEq, Eq)]
pub struct BlockHandle {
    pub offset: usize,
    pub size: usize,
}

// A handle, and how many bytes it took.
#[derive(Clone, Copy, Debug, PartialEq, Eq)]
pub struct HandleRead {
    pub handle: BlockHandle,
    pub size: usize,
}

// The handle that starts s.
pub fn decode(s: &[u8]) -> Option<HandleRead>
    ensures { result ≡ given (handle s.now) }
{
    let offset = read_varint(s)?;
    let size = read_varint(&s[offset.size..])?;
    Some(HandleRead {
        handle: BlockHandle {
            offset: offset.value,
            size: size.value,
        },
        size: offset.size + size.size,
    })
}

// The handle that s is, and nothing more.
pub fn one_handle(s: &[u8]) -> Option<BlockHandle>
    ensures { result ≡ given (one_handle s.now) }
{
    let read = decode(s)?;
    if read.size == s.len() {
        Some(read.handle)
    } else {
        None
    }
}

// Writes a handle at a place of out; the place after it.
pub fn encode_to(out: &mut [u8], at: usize, handle: BlockHandle) -> Result<usize, NoRoom>
    ensures { Wrote out.old at (handle_bytes handle) result out.new }
{
    end_of(
        out.len(),
        at,
        varint_len(handle.offset) + varint_len(handle.size),
    )?;
    let next = write_varint(out, at, handle.offset)?;
    write_varint(out, next, handle.size)
}
