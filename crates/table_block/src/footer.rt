// The footer: the handles of the metaindex and the index, zeros up to 40 bytes, and the magic.
ghost use Rattle.std.specs.Prelude.{◌≡◌, ℕ, ◌-◌, ◌≤◌, List, length, drop};
ghost use Rattle.codec.specs.Bytes.{same_bytes};
ghost use Rattle.table_block.specs.Answers.{footer_answer};
ghost use Rattle.table.specs.Table.{magic, ends_before, footer_handles, footer};

use crate::refusal::Refusal;
use codec::blockhandle;
use codec::blockhandle::BlockHandle;
use codec::fixed::FixedInt;

// The most bytes that a table has.
pub const TABLE_LIMIT: usize = 16777216;

// Where the metaindex and the index of a table stand.
#[derive(Clone, Copy, Debug, PartialEq, Eq)]
pub struct Footer {
    pub metaindex: BlockHandle,
    pub index: BlockHandle,
}

// Whether the block at a handle and its trailer of 5 bytes end before the footer, the last 48 of a table of len bytes.
pub fn placed(len: usize, handle: BlockHandle) -> bool
    ensures { result ≡ ends_before len handle.offset handle.size }
{
    let Some(room) = len.checked_sub(48 + 5) else {
        return false;
    };
    handle.offset <= room && handle.size <= room - handle.offset
}

// Whether a table ends in the magic.
fn ends_in_magic(table: &[u8]) -> bool
    requires { 48 ≤ length table.now }
    ensures { result ≡ same_bytes (drop (length table.now - 8) table.now) magic }
{
    u64::read(table, table.len() - 8).unwrap() == 0xdb47_7524_8b80_fb57
}

// The two handles in the 40 bytes before the magic, if both blocks stand before the footer of a table of len bytes.
fn handles(s: &[u8], len: usize) -> Result<Footer, Refusal>
    ensures { (t : List ℕ) → length t ≡ len → result ≡ footer_answer (footer_handles t s.now) }
{
    let metaindex = blockhandle::decode(s).ok_or(Refusal::Outside)?;
    let index = blockhandle::decode(&s[metaindex.size..]).ok_or(Refusal::Outside)?;
    if !placed(len, metaindex.handle) || !placed(len, index.handle) {
        return Err(Refusal::Outside);
    }
    Ok(Footer {
        metaindex: metaindex.handle,
        index: index.handle,
    })
}

// The footer of a table.
pub fn decode(table: &[u8]) -> Result<Footer, Refusal>
    ensures { result ≡ footer_answer (footer table.now) }
{
    let n = table.len();
    if n < 48 || TABLE_LIMIT < n || !ends_in_magic(table) {
        return Err(Refusal::NoTable);
    }
    let from = n - 48;
    let to = n - 8;
    handles(&table[from..to], n)
}
