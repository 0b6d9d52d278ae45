// A tour of the library: builds a table of words and their cells in two editions of a code, checks it, looks words up, walks over
// it, and damages it in three ways. Each line of standard input is an entry (`+ word edition cells`; without cells it is a
// deletion) or a question (`? word edition`).
#![tactic(auto)]

mod building;
mod damage;
mod list;
mod reading;
mod say;

use std::alloc::Global;
use std::io;
use std::io::{BufWriter, Read, Write};

// A table is built of the list and read, and then damaged copies of it.
fn tour<W: Write>(alloc: Global, writer: &mut W, text: &[u8]) -> io::Result<()> {
    let lines = list::read(alloc, text)?;
    let list = lines.as_slice();
    let Some(mut table) = building::build(alloc, writer, list)? else {
        return Ok(());
    };
    reading::check(writer, table.as_slice())?;
    reading::questions(writer, list, table.as_slice())?;
    reading::walk(writer, table.as_slice())?;
    damage::three(writer, table.as_mut_slice())
}

// No more than 4096 bytes of standard input are read.
fn main(rt: HostRuntime) -> io::Result<()> {
    let alloc = rt.alloc();
    let mut text = Vec::new(alloc);
    rt.reader().take(4096).read_to_end(&mut text)?;
    let mut writer = BufWriter::new(alloc, io::writer(&rt))?;
    tour(alloc, &mut writer, text.as_slice())?;
    writer.flush()
}
