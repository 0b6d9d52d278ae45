// The builder's state: its numbers shown, its checksum, and a field of it set to a number.
use crate::finished::with_number;
use crate::show::{Out, Part};
use block_builder::block_builder::BlockBuilder;
use builder::table_builder::{Builder, Lengths, Options};
use checksum::crc;
use std::io;
use std::io::Write;

// A state before any start.
pub fn none() -> Builder {
    Builder {
        options: Options {
            block_size: 0,
            interval: 0,
            filter: None,
        },
        lengths: no_lengths(),
        written: 0,
        pending: BlockBuilder::new(0),
        indexed: BlockBuilder::new(0),
        filtered: 0,
        made: 0,
        waiting: 0,
        finished: false,
    }
}

pub fn no_lengths() -> Lengths {
    Lengths {
        out: 0,
        index: 0,
        filters: 0,
        restarts: 0,
        index_restarts: 0,
        offsets: 0,
        hashes: 0,
    }
}

// A filter by a number: none, or one bit less than the number.
pub fn choice(n: usize) -> Option<u32> {
    let bits = n.checked_sub(1)?;
    Some((bits % 0x1_0000_0000) as u32)
}

// The number of a filter.
fn number_of(filter: Option<u32>) -> usize {
    filter.map_or(0, |bits| bits as usize + 1)
}

fn numbers_of(l: &Lengths) -> [usize; 7] {
    [
        l.out,
        l.index,
        l.filters,
        l.restarts,
        l.index_restarts,
        l.offsets,
        l.hashes,
    ]
}

// A checksum with numbers of 8 bytes more.
fn with_numbers(sum: u32, numbers: &[usize]) -> u32 {
    numbers.iter().fold(sum, |sum, n| with_number(sum, *n))
}

fn with_block(sum: u32, b: &BlockBuilder) -> u32 {
    let numbers = [b.interval, b.bytes, b.restarts, b.since, b.len];
    crc::extend(with_numbers(sum, &numbers), &b.last)
}

// The checksum of all that a state holds.
pub fn sum(b: &Builder) -> u32 {
    let o = &b.options;
    let options = with_numbers(0, &[o.block_size, o.interval, number_of(o.filter)]);
    let lengths = with_numbers(options, &numbers_of(&b.lengths));
    let blocks = with_block(with_block(lengths, &b.pending), &b.indexed);
    let finished = usize::from(b.finished);
    with_numbers(
        blocks,
        &[b.written, b.filtered, b.made, b.waiting, finished],
    )
}

// A block's numbers, and its last key.
fn tell_block(to: &mut Out, b: &BlockBuilder) -> io::Result<()> {
    let last = Part::new(&b.last, 0, b.len);
    write!(
        to,
        " {} {} {} {} {last}",
        b.interval, b.bytes, b.restarts, b.since
    )
}

// All that a state holds but what lies behind the last keys.
pub fn tell(to: &mut Out, b: &Builder) -> io::Result<()> {
    let o = &b.options;
    write!(
        to,
        " {} {} {}",
        o.interval,
        o.block_size,
        number_of(o.filter)
    )?;
    for n in numbers_of(&b.lengths) {
        write!(to, " {n}")?;
    }
    write!(to, " {}", b.written)?;
    tell_block(to, &b.pending)?;
    tell_block(to, &b.indexed)?;
    write!(
        to,
        " {} {} {} {}",
        b.filtered,
        b.made,
        b.waiting,
        u8::from(b.finished)
    )
}

// Sets an option: 0 interval, 1 block size, 2 filter.
fn set_option(o: &mut Options, field: usize, n: usize) {
    match field {
        0 => o.interval = n,
        1 => o.block_size = n,
        _ => o.filter = choice(n),
    }
}

// Sets a length, from 0 to 6.
pub fn set_length(l: &mut Lengths, field: usize, n: usize) {
    match field {
        0 => l.out = n,
        1 => l.index = n,
        2 => l.filters = n,
        3 => l.restarts = n,
        4 => l.index_restarts = n,
        5 => l.offsets = n,
        _ => l.hashes = n,
    }
}

// Sets a field of a block: 0 interval, 1 bytes, 2 restarts, 3 since, 4 len, 5 the first byte of the last key.
fn set_block(b: &mut BlockBuilder, field: usize, n: usize) {
    match field {
        0 => b.interval = n,
        1 => b.bytes = n,
        2 => b.restarts = n,
        3 => b.since = n,
        4 => b.len = n,
        _ => b.last[0] = (n % 256) as u8,
    }
}

// Sets a field: from 0 on an option, from 10 a length; 20 written, 21 filtered, 22 made, 23 waiting, 24 finished; from 30 on the
// open block, from 40 the index.
pub fn set(b: &mut Builder, field: usize, n: usize) {
    match field {
        0..=9 => set_option(&mut b.options, field, n),
        10..=19 => set_length(&mut b.lengths, field - 10, n),
        20 => b.written = n,
        21 => b.filtered = n,
        22 => b.made = n,
        23 => b.waiting = n,
        24..=29 => b.finished = n != 0,
        30..=39 => set_block(&mut b.pending, field - 30, n),
        40.. => set_block(&mut b.indexed, field - 40, n),
    }
}
