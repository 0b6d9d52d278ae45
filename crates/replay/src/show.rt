// Answers, written.
use codec::put::NoRoom;
use std::io::{BufWriter, Stdout, Write};
use std::{fmt, io};

// Where the answers go.
pub type Out = BufWriter<Stdout>;

// The first bytes or numbers of a run, all of them where there are fewer.
pub fn front<T>(run: &[T], len: usize) -> &[T] {
    &run[..len.min(run.len())]
}

// Bytes in hex.
#[derive(Clone, Copy)]
pub struct Hex<'a>(pub &'a [u8]);

impl fmt::Display for Hex<'_> {
    fn fmt<W: fmt::Write>(&self, f: &mut fmt::Formatter<W>) -> fmt::Result {
        for b in self.0 {
            write!(f, "{b:02x}")?;
        }
        Ok(())
    }
}

// Short bytes in hex, none and long ones by their length and checksum.
#[derive(Clone, Copy)]
pub struct Bytes<'a>(pub &'a [u8]);

impl fmt::Display for Bytes<'_> {
    fn fmt<W: fmt::Write>(&self, f: &mut fmt::Formatter<W>) -> fmt::Result {
        let bytes = self.0;
        let len = bytes.len();
        if 0 < len && len <= 40 {
            return write!(f, "{}", Hex(bytes));
        }
        write!(f, "{len}:{:08x}", checksum::crc::extend(0, bytes))
    }
}

// A part of a run, which may not lie in it.
#[derive(Clone, Copy)]
pub struct Part<'a>(Option<&'a [u8]>);

impl<'a> Part<'a> {
    // So many bytes at a place.
    pub fn new(run: &'a [u8], at: usize, len: usize) -> Self {
        Part(run.get(at..).and_then(|rest| rest.get(..len)))
    }
}

impl fmt::Display for Part<'_> {
    fn fmt<W: fmt::Write>(&self, f: &mut fmt::Formatter<W>) -> fmt::Result {
        match self.0 {
            Some(bytes) => write!(f, "{}", Bytes(bytes)),
            None => write!(f, "outside"),
        }
    }
}

// A key at the front of a run that was full of ee: the rest has to be as it was.
#[derive(Clone, Copy)]
pub struct Key<'a> {
    pub run: &'a [u8],
    pub len: usize,
}

impl fmt::Display for Key<'_> {
    fn fmt<W: fmt::Write>(&self, f: &mut fmt::Formatter<W>) -> fmt::Result {
        match self.run.split_at_checked(self.len) {
            Some((key, rest)) => write!(f, "{}{}", Bytes(key), changed(rest)),
            None => write!(f, "outside"),
        }
    }
}

// Whether a run is still full of ee: looked at whole, which is quicker than to look for an end.
pub fn untouched(run: &[u8]) -> bool {
    run.iter().fold(0, |apart, b| apart | (*b ^ 0xee)) == 0
}

// Tells of a run that is not as it was, full of ee.
pub fn changed(run: &[u8]) -> &'static str {
    if untouched(run) { "" } else { " changed" }
}

// Shows what is written at place 3 of a run. The same in a run that lacks a byte for it has to be refused and leave that as it was.
pub(crate) fn written<W>(to: &mut Out, write: W) -> io::Result<()>
where
    W: Fn(&mut [u8], usize) -> Result<usize, NoRoom>,
    requires { W.IsAlwaysCallable write }
{
    const ROOM: usize = 2700;
    let mut run = [0xee_u8; ROOM];
    let Ok(end) = write(&mut run, 3) else {
        return write!(to, " no room");
    };
    let len = end.saturating_sub(3);
    write!(to, " {}", Part::new(&run, 3, len))?;
    if len == 0 {
        return Ok(());
    }
    let mut short = [0xee_u8; ROOM];
    match write(&mut short, (ROOM + 1).saturating_sub(len)) {
        Err(NoRoom) => write!(to, "{}", changed(&short)),
        Ok(_) => write!(to, " taken"),
    }
}
