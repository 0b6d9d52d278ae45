// Commands on filters and filter blocks.
use crate::fields::Fields;
use crate::show;
use crate::show::{Out, front};
use bloom::filter as one;
use filter_block::filter_block as groups;
use filter_block::filter_block::Made;
use std::io;
use std::io::Write;

// No filter, or one of so many bits per key.
fn choice(line: &mut Fields) -> Option<u32> {
    match line.number() {
        0 => None,
        bits => Some((bits % 0x1_0000_0000) as u32),
    }
}

// The hash of a word.
fn hash_of(line: &mut Fields) -> u32 {
    let mut a = [0u8; 2600];
    one::bloom_hash(line.field(&mut a))
}

pub fn hash(to: &mut Out, line: &mut Fields) -> io::Result<()> {
    write!(to, " {:08x}", hash_of(line))
}

pub fn probes(to: &mut Out, line: &mut Fields) -> io::Result<()> {
    let bits = (line.number() % 0x1_0000_0000) as u32;
    write!(to, " {}", one::probe_count(bits))
}

// The hashes of the words up to the end of the line, as far as there is room.
fn hashes<'a>(line: &mut Fields, all: &'a mut [u32]) -> &'a [u32] {
    let mut len: usize = 0;
    for (i, hash) in all.iter_mut().enumerate() {
        if line.is_empty() {
            break;
        }
        *hash = hash_of(line);
        len = i + 1;
    }
    front(all, len)
}

pub fn create(to: &mut Out, line: &mut Fields) -> io::Result<()> {
    let mut all = [0u32; 512];
    let choice = choice(line);
    let hashes = hashes(line, &mut all);
    show::written(to, |run, at| one::create_filter(choice, hashes, run, at))
}

// A filter, and a word.
pub fn may(to: &mut Out, line: &mut Fields) -> io::Result<()> {
    let mut a = [0u8; 2600];
    let filter = line.field(&mut a);
    let may = one::key_may_match(filter, hash_of(line));
    write!(to, "{}", if may { " may" } else { " no" })
}

pub fn formed(to: &mut Out, line: &mut Fields) -> io::Result<()> {
    let mut a = [0u8; 2600];
    let formed = groups::is_formed(line.field(&mut a));
    write!(to, "{}", if formed { " formed" } else { " not" })
}

// A filter block, the place of a block, and a word.
pub fn asked(to: &mut Out, line: &mut Fields) -> io::Result<()> {
    let mut a = [0u8; 2600];
    let block = line.field(&mut a);
    let offset = line.number();
    let may = groups::may_match(block, offset, hash_of(line));
    write!(to, "{}", if may { " may" } else { " no" })
}

// Filters made of words up to a number of them, in runs of so many bytes and so many offsets, and the block of them.
pub fn make(to: &mut Out, line: &mut Fields) -> io::Result<()> {
    let choice = choice(line);
    let upto = line.number();
    let mut filters = [0u8; 128];
    let mut offsets = [0u32; 8];
    let Some(filters_room) = filters.get_mut(..line.number()) else {
        return Ok(());
    };
    let Some(offsets_room) = offsets.get_mut(..line.number()) else {
        return Ok(());
    };
    let mut all = [0u32; 512];
    let hashes = hashes(line, &mut all);
    let answer = groups::make_filters(choice, hashes, upto, filters_room, 0, offsets_room, 0);
    let Ok(Made { bytes, made }) = answer else {
        return write!(to, " no room");
    };
    write!(to, " {bytes} {made}")?;
    let filters = front(&filters, bytes);
    let offsets = front(&offsets, made);
    show::written(to, |run, at| groups::finish(run, at, filters, offsets))
}
