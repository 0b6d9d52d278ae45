// The table damaged in three ways, one after the other.
use crate::reading;
use block_reader::block;
use block_reader::block::Which;
use checksum::trailer::put_trailer;
use codec::blockhandle;
use codec::blockhandle::BlockHandle;
use reader::table_reader;
use reader::table_reader::Entry;
use std::io;
use std::io::Write;
use table_block::footer;

// Changes a bit of the byte at a place; the same again makes it as it was.
fn flip(table: &mut [u8], at: usize) {
    if let Some(b) = table.get_mut(at) {
        *b ^= 1;
    }
}

// A byte that the press reads as another, and no new checksum.
fn changed<W: Write>(writer: &mut W, table: &mut [u8]) -> io::Result<()> {
    writeln!(writer, "Damage 1: one bit of the first block is changed.")?;
    flip(table, 20);
    reading::check(writer, table)?;
    flip(table, 20);
    Ok(())
}

fn cut<W: Write>(writer: &mut W, table: &[u8]) -> io::Result<()> {
    writeln!(writer, "Damage 2: the last byte is missing.")?;
    if let Some((_, shorter)) = table.split_last() {
        reading::check(writer, shorter)?;
    }
    Ok(())
}

// So many bytes at a place.
fn bytes_at(s: &[u8], at: usize, len: usize) -> Option<&[u8]> {
    s.get(at..)?.get(..len)
}

// The block of which the index has an entry at a place.
fn named(index: &[u8], at: usize) -> Option<BlockHandle> {
    let mut key = [0u8; 1032];
    let row = block::by_place(index, at, Which::Here, &mut key).ok()??;
    blockhandle::one_handle(bytes_at(index, row.value_at, row.value_len)?)
}

// The block of an entry, or the table's first block.
fn block_of(table: &[u8], entry: Option<Entry>) -> Option<BlockHandle> {
    let BlockHandle { offset, size } = footer::decode(table).ok()?.index;
    let at = entry.map_or(0, |e| e.place.index);
    named(bytes_at(table, offset, size)?, at)
}

// The first byte of an entry's key becomes a, and its block gets a new checksum. Every key is whole: it ends where the value
// starts. A table without data blocks gets the checksum of an empty one at its start.
fn lower(table: &mut [u8], entry: Option<Entry>) {
    let BlockHandle { offset, size } = block_of(table, entry).unwrap_or(BlockHandle {
        offset: 0,
        size: 0,
    });
    let key = entry.and_then(|e| e.value_at.checked_sub(e.key_len));
    if let Some(first) = key.and_then(|at| table.get_mut(at)) {
        *first = b'a';
    }
    put_trailer(table, offset, size).ok();
}

// The newest entry of a word.
fn newest(table: &[u8], word: &[u8]) -> Option<Entry> {
    let mut key = [0u8; 1032];
    table_reader::seek(table, word, 9, &mut key).ok()?
}

// The newest entry of a word is the first of its block. With a lower first byte its key stands below the block before it, and
// the checksum does not show it: a search steps over it.
fn lowered<W: Write>(writer: &mut W, table: &mut [u8]) -> io::Result<()> {
    writeln!(
        writer,
        "Damage 3: the first key of a block is lowered, below the block before it, and the checksum made anew."
    )?;
    let entry = newest(table, b"dollar");
    lower(table, entry);
    write!(
        writer,
        "A press that does not check takes an outdated code: "
    )?;
    reading::look(writer, table, b"dollar", 2)?;
    reading::check(writer, table)
}

pub fn three<W: Write>(writer: &mut W, table: &mut [u8]) -> io::Result<()> {
    changed(writer, table)?;
    cut(writer, table)?;
    lowered(writer, table)
}
