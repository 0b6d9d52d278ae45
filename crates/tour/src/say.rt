// Sentences, one to a line.
use std::io;
use std::io::Write;
use table_block::refusal::Refusal;

// A word and an edition, to say something of.
pub fn of<W: Write>(writer: &mut W, word: &[u8], edition: u64) -> io::Result<()> {
    writer.write_all(word)?;
    write!(writer, ", edition {edition}: ")
}

// A refusal: its number, and what it means.
pub fn refused<W: Write>(writer: &mut W, refusal: Refusal) -> io::Result<()> {
    let number = refusal.number();
    writeln!(writer, "refused, number {number}: {refusal}.")
}
