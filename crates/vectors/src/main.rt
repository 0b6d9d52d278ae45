// Runs published vectors and worked cases through the code and writes what it answers, a line each.
#![tactic(auto)]

use checksum::{crc, trailer};
use codec::blockhandle::{BlockHandle, HandleRead};
use codec::fixed::FixedInt;
use codec::put::NoRoom;
use codec::varint::Varint;
use codec::{blockhandle, put, varint};
use std::io::{BufWriter, Write};
use std::{fmt, io};

// Bytes in hex.
#[derive(Clone, Copy)]
struct Hex<'a>(&'a [u8]);

impl fmt::Display for Hex<'_> {
    fn fmt<W: fmt::Write>(&self, f: &mut fmt::Formatter<W>) -> fmt::Result {
        for b in self.0 {
            write!(f, "{b:02x}")?;
        }
        Ok(())
    }
}

// What a write answered.
#[derive(Clone, Copy)]
struct Wrote(Result<usize, NoRoom>);

impl fmt::Display for Wrote {
    fn fmt<W: fmt::Write>(&self, f: &mut fmt::Formatter<W>) -> fmt::Result {
        match self.0 {
            Ok(next) => write!(f, "up to {next}"),
            Err(NoRoom) => write!(f, "no room"),
        }
    }
}

// A varint that was read.
#[derive(Clone, Copy)]
struct Read(Option<Varint>);

impl fmt::Display for Read {
    fn fmt<W: fmt::Write>(&self, f: &mut fmt::Formatter<W>) -> fmt::Result {
        match self.0 {
            Some(Varint { value, size }) => write!(f, "{value} from {size}"),
            None => write!(f, "bad"),
        }
    }
}

// A number that was read, in so many digits.
#[derive(Clone, Copy)]
struct Number(Option<u64>, usize);

impl fmt::Display for Number {
    fn fmt<W: fmt::Write>(&self, f: &mut fmt::Formatter<W>) -> fmt::Result {
        let digits = self.1;
        match self.0 {
            Some(x) => write!(f, "{x:0digits$x}"),
            None => write!(f, "none"),
        }
    }
}

// ---- the checksum

// The checksum of s, masked, and the same in two parts.
fn checksum<W: Write>(writer: &mut W, name: &str, s: &[u8]) -> io::Result<()> {
    let whole = crc::extend(0, s);
    let masked = crc::mask_crc(whole);
    let (front, back) = s.split_at(s.len() / 2);
    let same = crc::extend(crc::extend(0, front), back) == whole;
    let parts = if same { "the same" } else { "another" };
    writeln!(
        writer,
        "crc32c of {name}: {whole:08x}, masked {masked:08x}, {parts} in two parts"
    )
}

fn mask<W: Write>(writer: &mut W, x: u32) -> io::Result<()> {
    let masked = crc::mask_crc(x);
    writeln!(writer, "mask of {x:08x}: {masked:08x}")
}

// ---- varints

// x written at place 1 of a run, the run after it, and x read back; and where there is a byte too little.
fn write_varint<W: Write>(writer: &mut W, x: usize) -> io::Result<()> {
    let mut run = [0xee_u8; 12];
    let len = varint::varint_len(x);
    let wrote = Wrote(varint::write_varint(&mut run, 1, x));
    let read = Read(varint::read_varint(&run[1..]));
    write!(
        writer,
        "varint {x} of {len}: {wrote}, {}, read {read}",
        Hex(&run)
    )?;
    if len <= 12 {
        let mut short = [0xee_u8; 12];
        let at = 13 - len;
        let wrote = Wrote(varint::write_varint(&mut short, at, x));
        write!(writer, "; at {at} {wrote}, {}", Hex(&short))?;
    }
    writeln!(writer)
}

fn read_varint<W: Write>(writer: &mut W, s: &[u8]) -> io::Result<()> {
    let read = Read(varint::read_varint(s));
    writeln!(writer, "varint in {}: {read}", Hex(s))
}

// ---- numbers of 4 and 8 bytes

// Both widths written at a place of a run of 12, and read back there.
fn write_numbers<W: Write>(writer: &mut W, at: usize) -> io::Result<()> {
    let mut run = [0xee_u8; 12];
    let wrote = Wrote(0xa1b2_c3d4_u32.write(&mut run, at));
    let read = Number(u32::read(&run, at).map(u64::from), 8);
    write!(
        writer,
        "4 bytes at {at}: {wrote}, {}, read {read}",
        Hex(&run)
    )?;
    let mut run = [0xee_u8; 12];
    let wrote = Wrote(0xa1b2_c3d4_e5f6_0718_u64.write(&mut run, at));
    let read = Number(u64::read(&run, at), 16);
    writeln!(writer, "; 8 bytes: {wrote}, {}, read {read}", Hex(&run))
}

// ---- handles

fn read_handle<W: Write>(writer: &mut W, s: &[u8]) -> io::Result<()> {
    write!(writer, "handle in {}: ", Hex(s))?;
    match blockhandle::decode(s) {
        Some(HandleRead { handle, size }) => write!(
            writer,
            "{} + {} from {size}",
            handle.offset, handle.size
        )?,
        None => write!(writer, "bad")?,
    }
    if blockhandle::one_handle(s).is_some() {
        writeln!(writer, ", and nothing more")
    } else {
        writeln!(writer, ", not alone")
    }
}

fn write_handle<W: Write>(writer: &mut W, at: usize, offset: usize, size: usize) -> io::Result<()> {
    let mut run = [0xee_u8; 21];
    let handle = BlockHandle { offset, size };
    let wrote = Wrote(blockhandle::encode_to(&mut run, at, handle));
    writeln!(
        writer,
        "handle {offset} + {size} at {at}: {wrote}, {}",
        Hex(&run)
    )
}

// ---- bytes and trailers

fn write_bytes<W: Write>(writer: &mut W, at: usize, s: &[u8]) -> io::Result<()> {
    let mut run = [0xee_u8; 8];
    let wrote = Wrote(put::put_bytes(&mut run, at, s));
    writeln!(
        writer,
        "bytes {} at {at} of 8: {wrote}, {}",
        Hex(s),
        Hex(&run)
    )
}

fn stands(t: &[u8; 16], offset: usize, size: usize) -> &'static str {
    if trailer::trailer_stands(t, offset, size) {
        "stands"
    } else {
        "not"
    }
}

// A block of size bytes at place 1 of a run of 16, its trailer, and whether that stands: as it is, with another type, with
// another checksum, with other contents, as it was again, one byte on, and past the end.
fn write_block<W: Write>(writer: &mut W, s: &[u8]) -> io::Result<()> {
    let mut run = [0xee_u8; 16];
    let size = s.len();
    put::put_bytes(&mut run, 1, s).ok();
    let wrote = Wrote(trailer::put_trailer(&mut run, 1, size));
    write!(
        writer,
        "block {}: {wrote}, {} {}",
        Hex(s),
        Hex(&run),
        stands(&run, 1, size)
    )?;
    if size < 7 {
        for (at, bits) in [(size + 1, 0x01), (size + 5, 0x80), (1, 0x01)] {
            run[at] ^= bits;
            write!(writer, " {}", stands(&run, 1, size))?;
            run[at] ^= bits;
        }
        write!(writer, " {}", stands(&run, 1, size))?;
    }
    writeln!(
        writer,
        " {} {}",
        stands(&run, 2, size),
        stands(&run, 1, usize::MAX)
    )
}

// ---- the cases

fn checksums<W: Write>(writer: &mut W) -> io::Result<()> {
    // RFC 3720, B.4
    checksum(writer, "32 bytes 00", &[0x00; 32])?;
    checksum(writer, "32 bytes ff", &[0xff; 32])?;
    checksum(
        writer,
        "32 bytes rising",
        b"\x00\x01\x02\x03\x04\x05\x06\x07\x08\x09\x0a\x0b\x0c\x0d\x0e\x0f\x10\x11\x12\x13\x14\x15\x16\x17\x18\x19\x1a\x1b\x1c\x1d\x1e\x1f",
    )?;
    checksum(
        writer,
        "32 bytes falling",
        b"\x1f\x1e\x1d\x1c\x1b\x1a\x19\x18\x17\x16\x15\x14\x13\x12\x11\x10\x0f\x0e\x0d\x0c\x0b\x0a\x09\x08\x07\x06\x05\x04\x03\x02\x01\x00",
    )?;
    checksum(
        writer,
        "a read command of 48 bytes",
        b"\x01\xc0\x00\x00\x00\x00\x00\x00\x00\x00\x00\x00\x00\x00\x00\x00\x14\x00\x00\x00\x00\x00\x04\x00\x00\x00\x00\x14\x00\x00\x00\x18\x28\x00\x00\x00\x00\x00\x00\x00\x02\x00\x00\x00\x00\x00\x00\x00",
    )?;
    // the check value, and nothing
    checksum(writer, "123456789", b"123456789")?;
    checksum(writer, "nothing", b"")?;
    for x in [0, 0xffff_ffff, 0x0000_7fff, 0x0000_8000] {
        mask(writer, x)?;
    }
    Ok(())
}

fn varints<W: Write>(writer: &mut W) -> io::Result<()> {
    // the least and the most of every length
    for x in [
        0,
        127,
        128,
        16383,
        16384,
        2097151,
        2097152,
        268435455,
        268435456,
        34359738367,
        34359738368,
        4398046511103,
        4398046511104,
        562949953421311,
        562949953421312,
        72057594037927935,
        72057594037927936,
        9223372036854775807,
        9223372036854775808,
        18446744073709551615,
    ] {
        write_varint(writer, x)?;
    }
    Ok(())
}

fn padded<W: Write>(writer: &mut W) -> io::Result<()> {
    // nothing, and no last byte
    read_varint(writer, b"")?;
    read_varint(writer, b"\x80")?;
    read_varint(writer, b"\x80\x80\x80\x80\x80\x80\x80\x80\x80")?;
    // padded forms
    read_varint(writer, b"\x80\x00")?;
    read_varint(writer, b"\xff\x80\x80\x00\x11")?;
    read_varint(writer, b"\x80\x80\x80\x80\x80\x80\x80\x80\x80\x00")?;
    // a tenth byte of 1 and of 2, and an eleventh
    read_varint(writer, b"\xff\xff\xff\xff\xff\xff\xff\xff\xff\x01")?;
    read_varint(writer, b"\x80\x80\x80\x80\x80\x80\x80\x80\x80\x02")?;
    read_varint(writer, b"\x80\x80\x80\x80\x80\x80\x80\x80\x80\x7f")?;
    read_varint(writer, b"\x80\x80\x80\x80\x80\x80\x80\x80\x80\x80\x00")?;
    read_varint(writer, b"\xff\xff\xff\xff\xff\xff\xff\xff\xff\x81\x00")
}

fn handles<W: Write>(writer: &mut W) -> io::Result<()> {
    // the two handles in the footer of the empty table, without filter and with one
    read_handle(writer, b"\x0a\x15")?;
    read_handle(writer, b"\x24\x08")?;
    read_handle(writer, b"\x0a\x2f")?;
    read_handle(writer, b"\x3e\x08")?;
    read_handle(writer, b"\x0a\x15\x24\x08")?;
    read_handle(writer, b"")?;
    read_handle(writer, b"\x0a")?;
    read_handle(writer, b"\x0a\x80")?;
    read_handle(writer, b"\x80\x00\x80\x00")?;
    read_handle(
        writer,
        b"\xff\xff\xff\xff\xff\xff\xff\xff\xff\x01\xff\xff\xff\xff\xff\xff\xff\xff\xff\x01",
    )?;
    write_handle(writer, 0, 10, 21)?;
    for at in [1, 2] {
        write_handle(writer, at, usize::MAX, usize::MAX)?;
    }
    for at in [20, 21, 22, usize::MAX] {
        write_handle(writer, at, 0, 0)?;
    }
    Ok(())
}

fn runs<W: Write>(writer: &mut W) -> io::Result<()> {
    for at in [0, 4, 5, 8, 9, 12, usize::MAX] {
        write_numbers(writer, at)?;
    }
    for at in [0, 5, 6] {
        write_bytes(writer, at, b"\x01\x02\x03")?;
    }
    for at in [8, 9] {
        write_bytes(writer, at, b"")?;
    }
    write_bytes(writer, usize::MAX, b"\x01")?;
    write_block(writer, b"\x00\x00\x00\x00\x01\x00\x00\x00")?;
    write_block(writer, b"")?;
    write_block(writer, b"\x0b")?;
    write_block(writer, b"\x01\x02\x03\x04\x05\x06\x07\x08\x09\x0a")?;
    write_block(writer, b"\x01\x02\x03\x04\x05\x06\x07\x08\x09\x0a\x0b")
}

fn main(rt: HostRuntime) -> io::Result<()> {
    let mut writer = BufWriter::new(rt.alloc(), io::writer(&rt))?;
    checksums(&mut writer)?;
    varints(&mut writer)?;
    padded(&mut writer)?;
    handles(&mut writer)?;
    runs(&mut writer)?;
    writer.flush()
}
