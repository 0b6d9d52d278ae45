// Commands on blocks: one is built or loaded, and the others damage it or read it. What is loaded may be a table as well.
use crate::cases::Loaded;
use crate::fields::Fields;
use crate::show::{Bytes, Key, Out, Part, changed};
use crate::walk;
use block_builder::block_builder::BlockBuilder;
use block_reader::block as rows;
use block_reader::block::{BlockError, Entry, Kind, Which};
use std::io;
use std::io::Write;

// Adds the key and the value of the next two fields.
fn add(
    to: &mut Out,
    block: &mut BlockBuilder,
    line: &mut Fields,
    out: &mut [u8],
    restarts: &mut [u32],
) -> io::Result<()> {
    let mut k = [0u8; 1100];
    let mut v = [0u8; 33000];
    let key = line.field(&mut k);
    let value = line.field(&mut v);
    if block.add(out, 0, restarts, key, value).is_err() {
        write!(to, " refused")?;
    }
    Ok(())
}

// A block at an interval, in runs of so many bytes and so many restarts, of the entries up to the end of the line.
pub fn build(to: &mut Out, line: &mut Fields, loaded: &mut Loaded) -> io::Result<()> {
    let mut block = BlockBuilder::new(line.number());
    let mut restarts = [0u32; 2048];
    loaded.len = 0;
    let Some(out) = loaded.run.as_mut_slice().get_mut(..line.number()) else {
        return Ok(());
    };
    let Some(restarts) = restarts.get_mut(..line.number()) else {
        return Ok(());
    };
    for _ in 0..65536 {
        if line.is_empty() {
            break;
        }
        add(to, &mut block, line, out, restarts)?;
    }
    let Ok(len) = block.finish(out, 0, restarts) else {
        return write!(to, " no room");
    };
    loaded.len = len;
    write!(to, " {}", Part::new(out, 0, len))?;
    if block.size_estimate() != len {
        write!(to, " not the size")?;
    }
    Ok(())
}

pub fn load(to: &mut Out, line: &mut Fields, loaded: &mut Loaded) -> io::Result<()> {
    let len = line.field(loaded.run.as_mut_slice()).len();
    loaded.len = len;
    write!(to, " {len}")
}

// Changes bits of the byte at a place.
pub fn damage(line: &mut Fields, loaded: &mut Loaded) {
    let at = line.number();
    let bits = (line.number() % 256) as u8;
    loaded.flip(at, bits);
}

// Bytes written over those at a place.
pub fn patch(line: &mut Fields, loaded: &mut Loaded) {
    if let Some(rest) = loaded.run.as_mut_slice().get_mut(line.number()..) {
        line.field(rest);
    }
}

pub fn kinds(to: &mut Out, block: &[u8]) -> io::Result<()> {
    for kind in [Kind::Data, Kind::Index, Kind::Metaindex] {
        write!(to, " {}", u8::from(rows::is_formed(block, kind)))?;
    }
    Ok(())
}

// What a read of a block answers.
type Found = Result<Option<Entry>, BlockError>;

// An entry: where it starts, its key, where its value starts, and the value.
fn found(to: &mut Out, block: &[u8], run: &[u8], found: Found) -> io::Result<()> {
    match found {
        Ok(None) => write!(to, " none{}", changed(run)),
        Err(BlockError::NoPlace) => write!(to, " no place{}", changed(run)),
        Err(BlockError::Bad) => write!(to, " bad{}", changed(run)),
        Ok(Some(e)) => {
            let key = Key {
                run,
                len: e.key_len,
            };
            let value = Part::new(block, e.value_at, e.value_len);
            write!(to, " {} {key} at {} {value}", e.start, e.value_at)
        }
    }
}

pub fn seek(to: &mut Out, line: &mut Fields, block: &[u8]) -> io::Result<()> {
    let mut w = [0u8; 1100];
    let mut key = [0xee_u8; 1032];
    let word = line.field(&mut w);
    let sequence = line.number() as u64;
    let f = rows::seek(block, word, sequence, &mut key);
    found(to, block, &key, f)
}

pub fn next(to: &mut Out, line: &mut Fields, block: &[u8]) -> io::Result<()> {
    let mut key = [0xee_u8; 1032];
    let f = rows::by_place(block, line.number(), Which::After, &mut key);
    found(to, block, &key, f)
}

// All entries, of which the first six are shown.
pub fn walk(to: &mut Out, block: &[u8]) -> io::Result<()> {
    walk::walk(to, |to, place, n| {
        let mut key = [0xee_u8; 1032];
        let f = match place {
            None => rows::first(block, &mut key),
            Some(at) => rows::by_place(block, at, Which::After, &mut key),
        };
        visit(to, block, &key, f, n)
    })
}

fn visit(to: &mut Out, block: &[u8], key: &[u8], f: Found, n: usize) -> io::Result<Option<usize>> {
    match f {
        Ok(Some(e)) => {
            if n < 6 {
                found(to, block, key, f)?;
            }
            Ok(Some(e.start))
        }
        Ok(None) | Err(BlockError::NoPlace) => Ok(None),
        Err(BlockError::Bad) => {
            write!(to, " bad")?;
            Ok(None)
        }
    }
}

// Whether what is found lies in the block.
fn is_inside(block: &[u8], f: Found) -> bool {
    let Ok(Some(e)) = f else {
        return true;
    };
    let rest = block.get(e.value_at..);
    rest.is_some_and(|rest| e.value_len <= rest.len()) && e.key_len <= 1032
}

// Reads any bytes: a seek, and the entry after each place. What is found has to lie in them.
pub fn any(to: &mut Out, line: &mut Fields, block: &[u8]) -> io::Result<()> {
    let mut w = [0u8; 1100];
    let mut key = [0u8; 1032];
    let f = rows::seek(block, line.field(&mut w), 7, &mut key);
    let inside = is_inside(block, f);
    write!(to, "{}", if inside { " inside" } else { " outside" })?;
    for at in 0..block.len() {
        let mut key = [0u8; 1032];
        let f = rows::by_place(block, at, Which::After, &mut key);
        if !is_inside(block, f) {
            write!(to, " outside")?;
        }
    }
    Ok(())
}

// The entry that starts some bytes, after a key of so many; then the whole key buffer.
pub fn read(to: &mut Out, line: &mut Fields) -> io::Result<()> {
    let mut r = [0u8; 1100];
    let mut key = [0xee_u8; 1032];
    let rest = line.field(&mut r);
    line.field(&mut key);
    match rows::read_entry(rest, &mut key, line.number()) {
        None => write!(to, " bad")?,
        Some(e) => {
            let value = Part::new(rest, e.value_at, e.value_len);
            write!(to, " {} {} at {} {value}", e.shared, e.key_len, e.value_at)?;
        }
    }
    write!(to, " {}", Bytes(&key))
}
