// CRC-32C (the polynomial of RFC 3720), bit by bit, and its mask.
ghost use Rattle.std.specs.Prelude.{◌≡◌};
ghost use Rattle.checksum.specs.Checksum.{crc_bit, crc_byte, crc_over, crc_extend, crc_mask};

// The state after one bit more.
fn bit(c: u32) -> u32
    ensures { result ≡ crc_bit c }
{
    if c % 2 == 1 {
        (c / 2) ^ 0x82f6_3b78
    } else {
        c / 2
    }
}

// The state after one byte more.
fn byte(c: u32, b: u8) -> u32
    ensures { result ≡ crc_byte c b }
{
    let mut x = c ^ u32::from(b);
    for _k in 0..8u32 {
        x = bit(x);
    }
    x
}

// The state after the bytes of s.
fn over(c: u32, s: &[u8]) -> u32
    ensures { result ≡ crc_over c s.now }
{
    let mut x = c;
    for b in s {
        x = byte(x, *b);
    }
    x
}

// The checksum of some bytes and then those of s, where crc is that of the first; 0 is the checksum of none.
pub fn extend(crc: u32, s: &[u8]) -> u32
    ensures { result ≡ crc_extend crc s.now }
{
    over(crc ^ 0xffff_ffff, s) ^ 0xffff_ffff
}

// The checksum as a table stores it.
pub fn mask_crc(crc: u32) -> u32
    ensures { result ≡ crc_mask crc }
{
    crc.rotate_right(15).wrapping_add(0xa282_ead8)
}
