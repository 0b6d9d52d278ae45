// The seven runs: filled, exchanged, and their checksums.
use crate::show::front;
use builder::table_builder;
use builder::table_builder::Lengths;
use checksum::crc;
use std::alloc::{AllocError, Global};
use std::mem;

// How long the runs are, those of bytes and those of numbers.
const BYTES: usize = 140_000;

const NUMBERS: usize = 35_000;

#[derive(Drop)]
pub struct Runs {
    pub out: Vec<u8>,
    pub index: Vec<u8>,
    pub filters: Vec<u8>,
    pub restarts: Vec<u32>,
    pub index_restarts: Vec<u32>,
    pub offsets: Vec<u32>,
    pub hashes: Vec<u32>,
}

// The first bytes or numbers of a run, all of them where there are fewer.
fn first<T>(run: &mut Vec<T>, len: usize) -> &mut [T] {
    let len = len.min(run.len());
    &mut run[..len]
}

// The checksum of the first numbers of a run.
fn sum(run: &[u32], len: usize) -> u32 {
    front(run, len)
        .iter()
        .fold(0, |sum, x| crc::extend(sum, &x.to_le_bytes()))
}

// Fills a run with what a pattern has at each place.
fn fill<T: Copy, P: Fn(usize) -> T>(run: &mut Vec<T>, pattern: P)
    requires { P.IsAlwaysCallable pattern }
{
    for (i, x) in run.iter_mut().enumerate() {
        *x = pattern(i);
    }
}

impl Runs {
    pub fn new(alloc: Global) -> Result<Self, AllocError> {
        Ok(Runs {
            out: vec![in alloc; 0; BYTES]?,
            index: vec![in alloc; 0; BYTES]?,
            filters: vec![in alloc; 0; BYTES]?,
            restarts: vec![in alloc; 0; NUMBERS]?,
            index_restarts: vec![in alloc; 0; NUMBERS]?,
            offsets: vec![in alloc; 0; NUMBERS]?,
            hashes: vec![in alloc; 0; NUMBERS]?,
        })
    }

    // The checksums of so many bytes and so many numbers of each.
    pub fn sums(&self, bytes: usize, numbers: usize) -> [u32; 7] {
        [
            crc::extend(0, front(self.out.as_slice(), bytes)),
            crc::extend(0, front(self.index.as_slice(), bytes)),
            crc::extend(0, front(self.filters.as_slice(), bytes)),
            sum(self.restarts.as_slice(), numbers),
            sum(self.index_restarts.as_slice(), numbers),
            sum(self.offsets.as_slice(), numbers),
            sum(self.hashes.as_slice(), numbers),
        ]
    }

    // Fills each with a pattern of its own.
    pub fn lay(&mut self) {
        fill(&mut self.out, |i| 0x11 ^ (i % 251) as u8);
        fill(&mut self.index, |i| 0x53 ^ (i % 251) as u8);
        fill(&mut self.filters, |i| 0x95 ^ (i % 251) as u8);
        fill(&mut self.restarts, |i| 0xa000_0000 ^ (i % 65536) as u32);
        fill(
            &mut self.index_restarts,
            |i| 0xb000_0000 ^ (i % 65536) as u32,
        );
        fill(&mut self.offsets, |i| 0xc000_0000 ^ (i % 65536) as u32);
        fill(&mut self.hashes, |i| 0xd000_0000 ^ (i % 65536) as u32);
    }

    // Exchanges two, by the number of the pair.
    pub fn exchange(&mut self, pair: usize) {
        match pair {
            0 => mem::swap(&mut self.out, &mut self.index),
            1 => mem::swap(&mut self.out, &mut self.filters),
            2 => mem::swap(&mut self.index, &mut self.filters),
            3 => mem::swap(&mut self.restarts, &mut self.index_restarts),
            4 => mem::swap(&mut self.restarts, &mut self.offsets),
            5 => mem::swap(&mut self.restarts, &mut self.hashes),
            6 => mem::swap(&mut self.index_restarts, &mut self.offsets),
            7 => mem::swap(&mut self.index_restarts, &mut self.hashes),
            8 => mem::swap(&mut self.offsets, &mut self.hashes),
            _ => {}
        }
    }

    // The first of each, in such lengths, lent to the builder.
    pub fn lend(&mut self, lengths: Lengths) -> table_builder::Runs<'_> {
        table_builder::Runs {
            out: first(&mut self.out, lengths.out),
            index: first(&mut self.index, lengths.index),
            filters: first(&mut self.filters, lengths.filters),
            restarts: first(&mut self.restarts, lengths.restarts),
            index_restarts: first(&mut self.index_restarts, lengths.index_restarts),
            offsets: first(&mut self.offsets, lengths.offsets),
            hashes: first(&mut self.hashes, lengths.hashes),
        }
    }
}
