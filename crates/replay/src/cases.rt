// Commands on keys, filters, blocks and tables, answered.
use crate::fields::Fields;
use crate::show::{Out, front};
use crate::{block_cases, filter_cases, keyed, tables};
use std::alloc::{AllocError, Global};
use std::io;

// A block or a table: a run, and how much of it is loaded.
#[derive(Drop)]
pub struct Loaded {
    pub run: Vec<u8>,
    pub len: usize,
}

impl Loaded {
    // Nothing.
    pub fn new(alloc: Global) -> Result<Self, AllocError> {
        Ok(Loaded {
            run: vec![in alloc; 0; 65536]?,
            len: 0,
        })
    }

    pub fn bytes(&self) -> &[u8] {
        front(self.run.as_slice(), self.len)
    }

    // Changes bits of the byte at a place; the same again makes it as it was.
    pub fn flip(&mut self, at: usize, bits: u8) {
        if let Some(b) = self.run.get_mut(at) {
            *b ^= bits;
        }
    }
}

// Answers a command.
pub fn answer(to: &mut Out, op: u8, line: &mut Fields, loaded: &mut Loaded) -> io::Result<()> {
    match op {
        b'c' => keyed::compare(to, line),
        b'i' => keyed::compare_keys(to, line),
        b't' => keyed::target(to, line),
        b'p' => keyed::parse(to, line),
        b'k' => keyed::build(to, line),
        b'u' => keyed::separate(to, line),
        b's' => keyed::separate_keys(to, line),
        b'n' => keyed::succeed(to, line),
        b'h' => filter_cases::hash(to, line),
        b'b' => filter_cases::probes(to, line),
        b'f' => filter_cases::create(to, line),
        b'm' => filter_cases::may(to, line),
        b'w' => filter_cases::formed(to, line),
        b'q' => filter_cases::asked(to, line),
        b'M' => filter_cases::make(to, line),
        _ => answer_loaded(to, op, line, loaded),
    }
}

// Answers a command on what is loaded.
fn answer_loaded(to: &mut Out, op: u8, line: &mut Fields, loaded: &mut Loaded) -> io::Result<()> {
    match op {
        b'B' => block_cases::build(to, line, loaded),
        b'L' => block_cases::load(to, line, loaded),
        b'D' => {
            block_cases::damage(line, loaded);
            Ok(())
        }
        b'Z' => {
            block_cases::patch(line, loaded);
            Ok(())
        }
        b'T' => {
            loaded.len = line.number();
            Ok(())
        }
        b'W' => block_cases::walk(to, loaded.bytes()),
        b'F' => block_cases::kinds(to, loaded.bytes()),
        b'S' => block_cases::seek(to, line, loaded.bytes()),
        b'N' => block_cases::next(to, line, loaded.bytes()),
        b'A' => block_cases::any(to, line, loaded.bytes()),
        b'V' => tables::verdict(to, loaded.bytes()),
        b'J' => tables::seek(to, line, loaded.bytes()),
        b'Q' => tables::lookup(to, line, loaded.bytes()),
        b'P' => tables::step(to, line, loaded.bytes()),
        b'U' => tables::walk(to, loaded.bytes()),
        b'I' => tables::any(to, line, loaded.bytes()),
        b'Y' => tables::lengths(to, line, loaded.bytes()),
        b'X' => tables::bytes(to, line, loaded),
        b'R' => tables::sealed(to, line, loaded),
        _ => block_cases::read(to, line),
    }
}
