// Answers a list in sections. A line `# NAME` starts a section and is written back; the name decides how its lines are read:
// those of `cases` and `original` are commands on keys, filters, blocks and tables, those of `builder` calls of the table builder.
// Each line is a command and its fields, and each answer is a line. The sections are made by tools/replay_list.py,
// tools/original_list and tools/rebuild_list.py.
#![tactic(auto)]

mod block_cases;
mod calls;
mod cases;
mod fields;
mod filter_cases;
mod finished;
mod input;
mod keyed;
mod runs;
mod show;
mod state;
mod tables;
mod walk;

use calls::Rig;
use cases::Loaded;
use fields::Fields;
use input::Lines;
use show::Out;
use std::alloc::{AllocError, Global};
use std::io;
use std::io::{BufWriter, Write};

// So many lines at most are answered.
const MOST: usize = 100_000;

// How the lines of a section are read.
#[derive(Clone, Copy, PartialEq, Eq)]
enum Section {
    Cases,
    Calls,
    Unknown,
}

impl From<&[u8]> for Section {
    // The section that a line starts.
    fn from(line: &[u8]) -> Self {
        match line {
            b"# cases\n" | b"# original\n" => Section::Cases,
            b"# builder\n" => Section::Calls,
            _ => Section::Unknown,
        }
    }
}

// The section in turn, and what its lines are about.
#[derive(Drop)]
struct Replay {
    section: Section,
    loaded: Loaded,
    rig: Rig,
}

impl Replay {
    fn new(alloc: Global) -> Result<Self, AllocError> {
        Ok(Replay {
            section: Section::Unknown,
            loaded: Loaded::new(alloc)?,
            rig: Rig::new(alloc)?,
        })
    }

    // The start of a section, written back.
    fn start(&mut self, to: &mut Out, line: &[u8]) -> io::Result<()> {
        self.section = Section::from(line);
        self.loaded.len = 0;
        self.rig.clear();
        to.write_all(line)
    }

    fn answer(&mut self, to: &mut Out, line: &[u8]) -> io::Result<()> {
        let op = line.first().copied().unwrap_or(0);
        if op == b'#' {
            return self.start(to, line);
        }
        to.write_all(&[op])?;
        let mut fields = Fields::new(line);
        match self.section {
            Section::Cases => cases::answer(to, op, &mut fields, &mut self.loaded)?,
            Section::Calls => self.rig.answer(to, op, &mut fields)?,
            Section::Unknown => write!(to, " no section")?,
        }
        // The builder's command 0 is none, and has no answer to end.
        if self.section == Section::Calls && op == 0 {
            return Ok(());
        }
        writeln!(to)
    }
}

// Answers line after line.
fn answer(lines: &mut Lines, to: &mut Out, replay: &mut Replay) -> io::Result<()> {
    for _ in 0..MOST {
        let Some(line) = lines.next(to)? else {
            return Ok(());
        };
        replay.answer(to, line)?;
    }
    writeln!(to, "the list is too long")
}

fn main(rt: HostRuntime) -> io::Result<()> {
    let alloc = rt.alloc();
    let mut lines = Lines::new(alloc, rt.stdin())?;
    let mut to = BufWriter::new(alloc, rt.stdout())?;
    let mut replay = Replay::new(alloc)?;
    answer(&mut lines, &mut to, &mut replay)?;
    to.flush()
}
