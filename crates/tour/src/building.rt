// Building the table of the list's entries.
use crate::list::{Kind, Line};
use crate::say;
use builder::table_builder;
use builder::table_builder::{Builder, Options, Runs};
use std::alloc::{AllocError, Global};
use std::io;
use std::io::Write;
use table_block::refusal::Refusal;

// How long the runs are, those of bytes and those of numbers.
const BYTES: usize = 4096;

const NUMBERS: usize = 1024;

// Every entry is a restart, so that no key hangs on the one before it; a block is cut when it is over 320 bytes.
const OPTIONS: Options = Options {
    block_size: 320,
    interval: 1,
    filter: Some(10),
};

// The memory of the runs that a table is built in.
#[derive(Drop)]
struct Memory {
    out: Vec<u8>,
    index: Vec<u8>,
    filters: Vec<u8>,
    restarts: Vec<u32>,
    index_restarts: Vec<u32>,
    offsets: Vec<u32>,
    hashes: Vec<u32>,
}

impl Memory {
    fn new(alloc: Global) -> Result<Self, AllocError> {
        Ok(Memory {
            out: vec![in alloc; 0; BYTES]?,
            index: vec![in alloc; 0; BYTES]?,
            filters: vec![in alloc; 0; BYTES]?,
            restarts: vec![in alloc; 0; NUMBERS]?,
            index_restarts: vec![in alloc; 0; NUMBERS]?,
            offsets: vec![in alloc; 0; NUMBERS]?,
            hashes: vec![in alloc; 0; NUMBERS]?,
        })
    }

    // The runs, lent for one call.
    fn runs(&mut self) -> Runs<'_> {
        Runs {
            out: self.out.as_mut_slice(),
            index: self.index.as_mut_slice(),
            filters: self.filters.as_mut_slice(),
            restarts: self.restarts.as_mut_slice(),
            index_restarts: self.index_restarts.as_mut_slice(),
            offsets: self.offsets.as_mut_slice(),
            hashes: self.hashes.as_mut_slice(),
        }
    }
}

// Adds an entry. One without cells is a deletion.
fn add(builder: &mut Builder, memory: &mut Memory, entry: &Line) -> Result<(), Refusal> {
    let kind = u8::from(!entry.cells.is_empty());
    builder.add(memory.runs(), entry.word, entry.edition, kind, entry.cells)
}

// Adds every entry, and tells of those that are refused.
fn add_all<W: Write>(
    writer: &mut W,
    list: &[Line],
    builder: &mut Builder,
    memory: &mut Memory,
) -> io::Result<()> {
    for entry in list.iter().filter(|line| line.kind == Kind::Entry) {
        if let Err(refusal) = add(builder, memory, entry) {
            say::of(writer, entry.word, entry.edition)?;
            say::refused(writer, refusal)?;
        }
    }
    Ok(())
}

// The table, none if it is refused.
pub fn build<W: Write>(
    alloc: Global,
    writer: &mut W,
    list: &[Line],
) -> io::Result<Option<Vec<u8>>> {
    let entries = list.iter().filter(|line| line.kind == Kind::Entry).count();
    writeln!(writer, "The list has {entries} entries.")?;
    let mut memory = Memory::new(alloc)?;
    let mut builder = match table_builder::start(OPTIONS, memory.runs()) {
        Ok(builder) => builder,
        Err(refusal) => {
            say::refused(writer, refusal)?;
            return Ok(None);
        }
    };
    add_all(writer, list, &mut builder, &mut memory)?;
    match builder.finish(memory.runs()) {
        Ok(size) => {
            writeln!(writer, "The table of them was built. It has {size} bytes.")?;
            let mut table = memory.out;
            table.truncate(size);
            Ok(Some(table))
        }
        Err(refusal) => {
            say::refused(writer, refusal)?;
            Ok(None)
        }
    }
}
