// Standard input, line by line.
use crate::show::Out;
use std::alloc::Global;
use std::io;
use std::io::{BufRead, BufReader, Read, Stdin, Write};

// How long a line may be, with its end.
const MOST: usize = 65536;

#[derive(Drop)]
pub struct Lines {
    from: BufReader<Stdin>,
    line: Vec<u8>,
}

impl Lines {
    pub fn new(alloc: Global, from: Stdin) -> io::Result<Self> {
        Ok(Lines {
            from: BufReader::new(alloc, from)?,
            line: Vec::new(alloc),
        })
    }

    // The next line with its end, which the last may lack. After one that is too long, none.
    pub fn next(&mut self, to: &mut Out) -> io::Result<Option<&[u8]>> {
        self.line.clear();
        let mut most = self.from.by_ref().take(MOST as u64);
        most.read_until(b'\n', &mut self.line)?;
        let line = self.line.as_slice();
        if line.len() == MOST && !line.ends_with(b"\n") {
            to.write_all(b"a line is too long\n")?;
            return Ok(None);
        }
        Ok(Some(line).filter(|line| !line.is_empty()))
    }
}
