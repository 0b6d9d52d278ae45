// A finished table: its bytes, the full check of it, and a walk through it.
use crate::show::{Hex, Out, front};
use crate::{tables, walk};
use checksum::crc;
use full_check::check;
use keys::key_types;
use reader::table_reader;
use reader::table_reader::{Entry, Found, Place, Sought};
use std::io;
use std::io::Write;
use table_block::refusal::Refusal;

// A checksum with a number of 8 bytes more.
pub fn with_number(sum: u32, n: usize) -> u32 {
    crc::extend(sum, &(n as u64).to_le_bytes())
}

// Short tables in hex, long ones by their checksum.
fn bytes(to: &mut Out, table: &[u8]) -> io::Result<()> {
    if table.len() <= 300 {
        write!(to, " {}", Hex(table))
    } else {
        write!(to, " {:08x}", crc::extend(0, table))
    }
}

fn verdict(to: &mut Out, table: &[u8]) -> io::Result<()> {
    match check::check(table) {
        Ok(()) => write!(to, " pass"),
        Err(refusal) => write!(to, " check {}", refusal.number()),
    }
}

// Whether a lookup found the entry at a place, as a deletion or not.
fn is_it(f: Result<Found, Refusal>, place: Place, deletion: bool) -> bool {
    match f {
        Ok(Found::Entry(e)) => !deletion && e.place == place,
        Ok(Found::Deleted(e)) => deletion && e.place == place,
        Ok(Found::Absent) | Err(_) => false,
    }
}

// A lookup of the word at its edition has to find the entry itself.
fn look(to: &mut Out, table: &[u8], key: &[u8], e: Entry) -> io::Result<()> {
    let mut other = [0xee_u8; 1032];
    let tag = key_types::tag_of(key);
    let f = table_reader::lookup(table, key_types::user_key(key), tag / 256, &mut other);
    if !is_it(f, e.place, tag % 256 == 0) {
        write!(to, " lost")?;
    }
    Ok(())
}

// The checksum with an entry more: key and value, and how long each is.
fn with_entry(sum: u32, table: &[u8], key: &[u8], e: Entry) -> u32 {
    let sum = crc::extend(with_number(sum, e.key_len), key);
    crc::extend(with_number(sum, e.value_len), table_reader::value(table, e))
}

// One entry of a walk, and the checksum with it.
fn visit(
    to: &mut Out,
    sum: &mut u32,
    table: &[u8],
    run: &[u8],
    s: Sought,
) -> io::Result<Option<Place>> {
    match s {
        Err(refusal) => {
            write!(to, " refused {}", refusal.number())?;
            Ok(None)
        }
        Ok(None) => Ok(None),
        Ok(Some(e)) => {
            let key = front(run, e.key_len);
            look(to, table, key, e)?;
            *sum = with_entry(*sum, table, key, e);
            Ok(Some(e.place))
        }
    }
}

// All entries, told by one checksum.
pub fn table(to: &mut Out, table: &[u8]) -> io::Result<()> {
    bytes(to, table)?;
    verdict(to, table)?;
    let mut sum: u32 = 0;
    walk::walk(to, |to, place, _| {
        let mut key = [0xee_u8; 1032];
        let s = tables::reached(table, place, &mut key);
        visit(to, &mut sum, table, &key, s)
    })?;
    write!(to, " {sum:08x}")
}
