// Calls of the builder over parts of the runs, and what they answer; a call that is refused must have changed nothing.
use crate::fields::Fields;
use crate::runs::Runs;
use crate::show::{Out, front};
use crate::{finished, state};
use builder::table_builder;
use builder::table_builder::{Builder, Lengths, Options};
use std::alloc::{AllocError, Global};
use std::io;
use std::io::Write;
use table_block::refusal::Refusal;

// The runs, and how long those of bytes and those of numbers are in use; their checksums after the last command that may change
// them; the lengths of the parts lent to calls; the builder's state, and one kept to come back to.
#[derive(Drop)]
pub struct Rig {
    runs: Runs,
    bytes: usize,
    numbers: usize,
    sums: [u32; 7],
    lent: Lengths,
    state: Builder,
    kept: Builder,
}

// What a call answers: the size of a table that is finished, none for other calls; or why it is refused.
type Answer = Result<Option<usize>, Refusal>;

// Interval, block size and filter.
fn options(line: &mut Fields) -> Options {
    let interval = line.number();
    Options {
        interval,
        block_size: line.number(),
        filter: state::choice(line.number()),
    }
}

// Seven lengths.
fn lengths(line: &mut Fields) -> Lengths {
    Lengths {
        out: line.number(),
        index: line.number(),
        filters: line.number(),
        restarts: line.number(),
        index_restarts: line.number(),
        offsets: line.number(),
        hashes: line.number(),
    }
}

impl Rig {
    pub fn new(alloc: Global) -> Result<Self, AllocError> {
        Ok(Rig {
            runs: Runs::new(alloc)?,
            bytes: 0,
            numbers: 0,
            sums: [0; 7],
            lent: state::no_lengths(),
            state: state::none(),
            kept: state::none(),
        })
    }

    // Nothing in use, nothing lent and nothing begun; what the runs hold stays.
    pub fn clear(&mut self) {
        self.bytes = 0;
        self.numbers = 0;
        self.sums = [0; 7];
        self.lent = state::no_lengths();
        self.state = state::none();
        self.kept = state::none();
    }

    // Takes the checksums of the runs as long as they are in use.
    fn sum(&mut self) {
        self.sums = self.runs.sums(self.bytes, self.numbers);
    }

    // The lengths lent, as far as the runs are in use.
    fn lent(&self) -> Lengths {
        let l = &self.lent;
        Lengths {
            out: l.out.min(self.bytes),
            index: l.index.min(self.bytes),
            filters: l.filters.min(self.bytes),
            restarts: l.restarts.min(self.numbers),
            index_restarts: l.index_restarts.min(self.numbers),
            offsets: l.offsets.min(self.numbers),
            hashes: l.hashes.min(self.numbers),
        }
    }

    // Starts with the options and the lengths of a line; refused, nothing is begun.
    fn start(&mut self, line: &mut Fields) -> Result<(), Refusal> {
        let options = options(line);
        self.lent = lengths(line);
        self.state = state::none();
        let lent = self.lent();
        self.state = table_builder::start(options, self.runs.lend(lent))?;
        Ok(())
    }

    // Adds a word, an edition, a kind and a value.
    fn add(&mut self, line: &mut Fields) -> Result<(), Refusal> {
        let mut w = [0u8; 1100];
        let mut v = [0u8; 33000];
        let word = line.field(&mut w);
        let edition = line.long();
        let kind = (line.number() % 256) as u8;
        let value = line.field(&mut v);
        let lent = self.lent();
        self.state
            .add(self.runs.lend(lent), word, edition, kind, value)
    }

    // Finishes a table, and says how long it is.
    fn finish(&mut self) -> Result<usize, Refusal> {
        let lent = self.lent();
        self.state.finish(self.runs.lend(lent))
    }

    // Tells what a call answered. Of a made-up state it is only told that the answer is one that may be given.
    fn tell(&self, to: &mut Out, op: u8, answer: Answer) -> io::Result<()> {
        match (op, answer) {
            (b'a', Ok(_) | Err(Refusal::Order | Refusal::Full))
            | (b'f', Ok(_) | Err(Refusal::Full)) => write!(to, " allowed"),
            (b'a' | b'f', Err(refusal)) => write!(to, " other {}", refusal.number()),
            (b'F', Ok(Some(size))) => {
                write!(to, " size {size}")?;
                finished::table(to, front(self.runs.out.as_slice(), size))
            }
            (_, Ok(_)) => write!(to, " ok"),
            (_, Err(refusal)) => write!(to, " refused {}", refusal.number()),
        }
    }

    // A call. One that is refused leaves everything as it was, and so does any start of the runs.
    fn call(&mut self, to: &mut Out, op: u8, line: &mut Fields) -> io::Result<()> {
        let runs = self.sums;
        let state = self.state;
        let answer = match op {
            b'S' => self.start(line).map(|()| None),
            b'F' | b'f' => self.finish().map(Some),
            _ => self.add(line).map(|()| None),
        };
        self.tell(to, op, answer)?;
        self.sum();
        if (answer.is_err() || op == b'S') && runs != self.sums {
            write!(to, " changed runs")?;
        }
        if answer.is_err() && op != b'S' && state::sum(&state) != state::sum(&self.state) {
            write!(to, " changed state")?;
        }
        Ok(())
    }

    // Does what a command says, and tells it.
    pub fn answer(&mut self, to: &mut Out, op: u8, line: &mut Fields) -> io::Result<()> {
        match op {
            b'W' => {
                self.bytes = line.number();
                self.numbers = line.number();
                self.runs.lay();
                self.sum();
            }
            b'X' => {
                self.runs.exchange(line.number());
                self.sum();
            }
            b'R' => {
                self.sum();
                for sum in self.sums {
                    write!(to, " {sum:08x}")?;
                }
            }
            b'N' => {
                let run = line.number();
                state::set_length(&mut self.lent, run, line.number());
            }
            b'P' => {
                let field = line.number();
                state::set(&mut self.state, field, line.long() as usize);
            }
            b'K' => self.kept = self.state,
            b'k' => self.state = self.kept,
            b'B' => state::tell(to, &self.state)?,
            b'S' | b'A' | b'a' | b'F' | b'f' => self.call(to, op, line)?,
            _ => {}
        }
        Ok(())
    }
}
