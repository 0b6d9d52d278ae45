// Commands on tables: the full check and the reads, of the loaded bytes.
use crate::cases::Loaded;
use crate::fields::Fields;
use crate::show::{Bytes, Key, Out, changed, front, untouched};
use crate::walk;
use checksum::trailer;
use codec::blockhandle::BlockHandle;
use full_check::check;
use reader::table_reader;
use reader::table_reader::{Entry, Found, Place, Sought};
use std::io;
use std::io::Write;
use table_block::refusal::Refusal;

// A word as of an edition.
#[derive(Clone, Copy)]
struct Asked<'a> {
    word: &'a [u8],
    edition: u64,
}

impl<'a> Asked<'a> {
    // Of the next two fields; the word at the front of a run.
    fn new(line: &mut Fields, run: &'a mut [u8]) -> Self {
        let word = line.field(run);
        Asked {
            word,
            edition: line.number() as u64,
        }
    }
}

pub fn verdict(to: &mut Out, table: &[u8]) -> io::Result<()> {
    match check::check(table) {
        Ok(()) => write!(to, " pass"),
        Err(refusal) => write!(to, " {}", refusal.number()),
    }
}

// An entry: its place, its key, where its value starts, and the value.
fn entry(to: &mut Out, table: &[u8], run: &[u8], e: Entry) -> io::Result<()> {
    let key = Key {
        run,
        len: e.key_len,
    };
    write!(
        to,
        " {} {} {key} at {} {}",
        e.place.index,
        e.place.entry,
        e.value_at,
        Bytes(table_reader::value(table, e))
    )
}

// Where no entry is given, the key buffer has to be as it was.
fn sought(to: &mut Out, table: &[u8], run: &[u8], s: Sought) -> io::Result<()> {
    match s {
        Err(refusal) => write!(to, " {}{}", refusal.number(), changed(run)),
        Ok(None) => write!(to, " none{}", changed(run)),
        Ok(Some(e)) => entry(to, table, run, e),
    }
}

// What a lookup answers.
type Looked = Result<Found, Refusal>;

fn found(to: &mut Out, table: &[u8], run: &[u8], f: Looked) -> io::Result<()> {
    match f {
        Err(refusal) => write!(to, " {}{}", refusal.number(), changed(run)),
        Ok(Found::Absent) => write!(to, " absent{}", changed(run)),
        Ok(Found::Entry(e)) => entry(to, table, run, e),
        Ok(Found::Deleted(e)) => {
            write!(to, " deleted")?;
            entry(to, table, run, e)
        }
    }
}

// A seek of a word and an edition, with a key buffer of so many bytes.
pub fn seek(to: &mut Out, line: &mut Fields, table: &[u8]) -> io::Result<()> {
    let mut w = [0u8; 1100];
    let mut run = [0xee_u8; 1100];
    let asked = Asked::new(line, &mut w);
    let s = match run.get_mut(..line.number()) {
        Some(key) => table_reader::seek(table, asked.word, asked.edition, key),
        None => Ok(None),
    };
    sought(to, table, &run, s)
}

pub fn lookup(to: &mut Out, line: &mut Fields, table: &[u8]) -> io::Result<()> {
    let mut w = [0u8; 1100];
    let mut run = [0xee_u8; 1100];
    let asked = Asked::new(line, &mut w);
    let f = match run.get_mut(..line.number()) {
        Some(key) => table_reader::lookup(table, asked.word, asked.edition, key),
        None => Ok(Found::Absent),
    };
    found(to, table, &run, f)
}

// The place of the next two fields.
fn place(line: &mut Fields) -> Place {
    let index = line.number();
    Place {
        index,
        entry: line.number(),
    }
}

// A step from a place, with a key buffer of so many bytes.
pub fn step(to: &mut Out, line: &mut Fields, table: &[u8]) -> io::Result<()> {
    let mut run = [0xee_u8; 1100];
    let place = place(line);
    let s = match run.get_mut(..line.number()) {
        Some(key) => table_reader::step(table, place, key),
        None => Ok(None),
    };
    sought(to, table, &run, s)
}

// The first entry of a walk, or the one after a place.
pub fn reached(table: &[u8], place: Option<Place>, key: &mut [u8]) -> Sought {
    match place {
        None => table_reader::seek(table, b"\0", 0x00ff_ffff_ffff_ffff, key),
        Some(place) => table_reader::step(table, place, key),
    }
}

// All entries, of which the first six are shown.
pub fn walk(to: &mut Out, table: &[u8]) -> io::Result<()> {
    walk::walk(to, |to, place, n| {
        let mut key = [0xee_u8; 1032];
        let s = reached(table, place, &mut key);
        visit(to, table, &key, s, n)
    })
}

fn visit(to: &mut Out, table: &[u8], key: &[u8], s: Sought, n: usize) -> io::Result<Option<Place>> {
    match s {
        Err(refusal) => {
            write!(to, " {}{}", refusal.number(), changed(key))?;
            Ok(None)
        }
        Ok(None) => {
            write!(to, "{}", changed(key))?;
            Ok(None)
        }
        Ok(Some(e)) => {
            if n < 6 {
                entry(to, table, key, e)?;
            }
            Ok(Some(e.place))
        }
    }
}

// Whether an entry's value lies in the table, and only its key was written to the key buffer.
fn lies(table: &[u8], run: &[u8], e: Entry) -> bool {
    let Some(rest) = table.get(e.value_at..) else {
        return false;
    };
    let Some(behind) = run.get(e.key_len..) else {
        return false;
    };
    e.value_len <= rest.len() && untouched(behind)
}

// Whether a refusal is one that a read may give on any table, the key buffer as it was.
fn may_refuse(run: &[u8], refusal: Refusal) -> bool {
    let may = matches!(
        refusal,
        Refusal::NoTable | Refusal::Outside | Refusal::Malformed | Refusal::NoPlace
    );
    may && untouched(run)
}

// Whether a seek or a step may answer this on any table.
fn may_seek(table: &[u8], run: &[u8], s: Sought) -> bool {
    match s {
        Err(refusal) => may_refuse(run, refusal),
        Ok(None) => untouched(run),
        Ok(Some(e)) => lies(table, run, e),
    }
}

// Whether a lookup may.
fn may_find(table: &[u8], run: &[u8], f: Looked) -> bool {
    match f {
        Err(refusal) => may_refuse(run, refusal),
        Ok(Found::Absent) => untouched(run),
        Ok(Found::Entry(e) | Found::Deleted(e)) => lies(table, run, e),
    }
}

fn other(to: &mut Out, may: bool) -> io::Result<()> {
    write!(to, "{}", if may { "" } else { " other" })
}

// The place that a seek or a step came to.
fn onward(s: Sought) -> Option<Place> {
    let Ok(Some(e)) = s else {
        return None;
    };
    Some(e.place)
}

fn any_lookup(to: &mut Out, table: &[u8], asked: Asked) -> io::Result<()> {
    let mut key = [0xee_u8; 1032];
    let f = table_reader::lookup(table, asked.word, asked.edition, &mut key);
    other(to, may_find(table, &key, f))
}

fn any_seek(to: &mut Out, table: &[u8], asked: Asked) -> io::Result<Option<Place>> {
    let mut key = [0xee_u8; 1032];
    let s = table_reader::seek(table, asked.word, asked.edition, &mut key);
    other(to, may_seek(table, &key, s))?;
    Ok(onward(s))
}

fn any_step(to: &mut Out, table: &[u8], place: Place) -> io::Result<Option<Place>> {
    let mut key = [0xee_u8; 1032];
    let s = table_reader::step(table, place, &mut key);
    other(to, may_seek(table, &key, s))?;
    Ok(onward(s))
}

// Reads any bytes: a lookup, a seek, and some steps from there. An answer that no table allows is told.
fn any_reads(to: &mut Out, table: &[u8], asked: Asked) -> io::Result<()> {
    any_lookup(to, table, asked)?;
    let mut place = any_seek(to, table, asked)?;
    for _ in 0..16 {
        let Some(from) = place else {
            break;
        };
        place = any_step(to, table, from)?;
    }
    Ok(())
}

// The same, and a step from a place.
pub fn any(to: &mut Out, line: &mut Fields, table: &[u8]) -> io::Result<()> {
    let mut w = [0u8; 1100];
    let asked = Asked::new(line, &mut w);
    any_reads(to, table, asked)?;
    any_step(to, table, place(line))?;
    write!(to, " allowed")
}

// The verdict on a table, what a lookup answers if it passes, and reads of it.
fn tried(to: &mut Out, table: &[u8], asked: Asked) -> io::Result<()> {
    match check::check(table) {
        Err(refusal) => write!(to, " {}", refusal.number())?,
        Ok(()) => {
            let mut key = [0xee_u8; 1032];
            write!(to, " pass")?;
            let f = table_reader::lookup(table, asked.word, asked.edition, &mut key);
            found(to, table, &key, f)?;
        }
    }
    any_reads(to, table, asked)
}

// Where a block ends, as far as there are bytes.
fn end(block: BlockHandle) -> usize {
    if block.offset <= 65536 && block.size <= 65536 {
        block.offset + block.size
    } else {
        block.offset
    }
}

// What is changed in turn: bits of each byte from a place up to another. A block is sealed anew after each change.
#[derive(Clone, Copy)]
struct Damage {
    from: usize,
    end: usize,
    bits: u8,
    sealed: Option<BlockHandle>,
}

impl Damage {
    // Changes the byte at a place; the same again makes it as it was. A block that has no room for its trailer is not sealed.
    fn change(&self, loaded: &mut Loaded, at: usize) {
        loaded.flip(at, self.bits);
        if let Some(block) = self.sealed {
            let _ = trailer::put_trailer(loaded.run.as_mut_slice(), block.offset, block.size);
        }
    }
}

fn each_byte(to: &mut Out, loaded: &mut Loaded, damage: Damage, asked: Asked) -> io::Result<()> {
    for at in damage.from..damage.end {
        damage.change(loaded, at);
        tried(to, loaded.bytes(), asked)?;
        damage.change(loaded, at);
    }
    Ok(())
}

// Every byte of the table changed in turn.
pub fn bytes(to: &mut Out, line: &mut Fields, loaded: &mut Loaded) -> io::Result<()> {
    let mut w = [0u8; 1100];
    let damage = Damage {
        from: 0,
        end: loaded.len,
        bits: (line.number() % 256) as u8,
        sealed: None,
    };
    let asked = Asked::new(line, &mut w);
    each_byte(to, loaded, damage, asked)
}

// Every byte of a block.
pub fn sealed(to: &mut Out, line: &mut Fields, loaded: &mut Loaded) -> io::Result<()> {
    let mut w = [0u8; 1100];
    let offset = line.number();
    let size = line.number();
    let block = BlockHandle { offset, size };
    let damage = Damage {
        from: offset,
        end: end(block),
        bits: (line.number() % 256) as u8,
        sealed: Some(block),
    };
    let asked = Asked::new(line, &mut w);
    each_byte(to, loaded, damage, asked)
}

// Every shorter length.
pub fn lengths(to: &mut Out, line: &mut Fields, table: &[u8]) -> io::Result<()> {
    let mut w = [0u8; 1100];
    let asked = Asked::new(line, &mut w);
    for len in 0..table.len() {
        tried(to, front(table, len), asked)?;
    }
    Ok(())
}
