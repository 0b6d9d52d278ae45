// The full check, lookups, and a walk.
use crate::list::{Kind, Line, MOST};
use crate::say;
use full_check::check;
use keys::key_types;
use keys::key_types::{Tag, ValueType};
use reader::table_reader;
use reader::table_reader::{Found, Place};
use std::io;
use std::io::Write;

pub fn check<W: Write>(writer: &mut W, table: &[u8]) -> io::Result<()> {
    write!(writer, "The full check: ")?;
    match check::check(table) {
        Ok(()) => writeln!(writer, "passed."),
        Err(refusal) => say::refused(writer, refusal),
    }
}

// The key at the front of a key buffer.
fn key_in(run: &[u8], len: usize) -> &[u8] {
    run.get(..len).unwrap_or(b"")
}

// The tag of that key.
fn tag_in(run: &[u8], len: usize) -> Tag {
    key_types::parse_tag(key_types::tag_of(key_in(run, len)))
}

// A lookup, told: the cells of an entry, and the edition in which they were set.
pub fn look<W: Write>(writer: &mut W, table: &[u8], word: &[u8], edition: u64) -> io::Result<()> {
    let mut run = [0u8; 1032];
    say::of(writer, word, edition)?;
    match table_reader::lookup(table, word, edition, &mut run) {
        Ok(Found::Entry(e)) => {
            let Tag { sequence, .. } = tag_in(&run, e.key_len);
            writer.write_all(table_reader::value(table, e))?;
            writeln!(writer, ", set in edition {sequence}.")
        }
        Ok(Found::Deleted(e)) => {
            let Tag { sequence, .. } = tag_in(&run, e.key_len);
            writeln!(writer, "deleted in edition {sequence}.")
        }
        Ok(Found::Absent) => writeln!(writer, "absent."),
        Err(refusal) => say::refused(writer, refusal),
    }
}

// Every question of the list.
pub fn questions<W: Write>(writer: &mut W, list: &[Line], table: &[u8]) -> io::Result<()> {
    writeln!(writer, "Words are looked up as of an edition.")?;
    for line in list.iter().filter(|line| line.kind == Kind::Question) {
        look(writer, table, line.word, line.edition)?;
    }
    Ok(())
}

// One entry of a walk, the first or the one after a place; its place, none after the last.
fn visit<W: Write>(
    writer: &mut W,
    table: &[u8],
    after: Option<Place>,
) -> io::Result<Option<Place>> {
    let mut run = [0u8; 1032];
    let sought = match after {
        None => table_reader::seek(table, b"\0", 0x00ff_ffff_ffff_ffff, &mut run),
        Some(place) => table_reader::step(table, place, &mut run),
    };
    match sought {
        Ok(Some(e)) => {
            let word = key_types::user_key(key_in(&run, e.key_len));
            let Tag { kind, sequence } = tag_in(&run, e.key_len);
            say::of(writer, word, sequence)?;
            if kind == ValueType::TypeDeletion {
                writeln!(writer, "deleted.")?;
            } else {
                writer.write_all(table_reader::value(table, e))?;
                writeln!(writer, ".")?;
            }
            Ok(Some(e.place))
        }
        Ok(None) => Ok(None),
        Err(refusal) => {
            say::refused(writer, refusal)?;
            Ok(None)
        }
    }
}

// All entries, by a seek of the least target and steps.
pub fn walk<W: Write>(writer: &mut W, table: &[u8]) -> io::Result<()> {
    writeln!(
        writer,
        "A walk over the table: each word, its newest edition first."
    )?;
    let mut place = visit(writer, table, None)?;
    for _ in 0..MOST {
        if place.is_none() {
            break;
        }
        place = visit(writer, table, place)?;
    }
    Ok(())
}
