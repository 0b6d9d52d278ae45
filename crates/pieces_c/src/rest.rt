// Checksums, keys and separators, and the footer.
ghost use Rattle.std.specs.Prelude.{◌≡◌};
ghost use Rattle.checksum.specs.Checksum.{crc_extend, crc_mask};
ghost use Rattle.keys.specs.Order.{internal, user_sep, separator, short_succ};
ghost use Rattle.table.specs.Table.{footer};
ghost use Rattle.table_block.specs.Answers.{footer_answer};
ghost use Rattle.pieces.specs.Numbers.{WroteOut};
ghost use Rattle.pieces.specs.Pieces.{footer_out};

use pieces::numbers::SalevoniSize;
use pieces::pieces::SalevoniFooter;

// The footer of a table.
#[unsafe(no_mangle)]
pub extern "C" fn salevoni_footer(table: &[u8]) -> SalevoniFooter
    ensures { result ≡ footer_out (footer_answer (footer table.now)) }
{
    pieces::pieces::salevoni_footer(table)
}

// The checksum continued over some bytes; it starts from 0.
#[unsafe(no_mangle)]
pub extern "C" fn salevoni_crc(crc: u32, bytes: &[u8]) -> u32
    ensures { result ≡ crc_extend crc bytes.now }
{
    pieces::pieces::salevoni_crc(crc, bytes)
}

// The checksum as a table stores it.
#[unsafe(no_mangle)]
pub extern "C" fn salevoni_mask(crc: u32) -> u32
    ensures { result ≡ crc_mask crc }
{
    pieces::pieces::salevoni_mask(crc)
}

// The internal key of a word, an edition and a kind.
#[unsafe(no_mangle)]
pub extern "C" fn salevoni_internal_key(
    out: &mut [u8],
    word: &[u8],
    edition: u64,
    kind: u8,
) -> SalevoniSize
    ensures { WroteOut out.old 0 (internal word.now edition kind) result out.new }
{
    pieces::pieces::salevoni_internal_key(out, word, edition, kind)
}

// The separator of two words.
#[unsafe(no_mangle)]
pub extern "C" fn salevoni_separator(out: &mut [u8], a: &[u8], b: &[u8]) -> SalevoniSize
    ensures { WroteOut out.old 0 (user_sep a.now b.now) result out.new }
{
    pieces::pieces::salevoni_separator(out, a, b)
}

// The separator of two internal keys.
#[unsafe(no_mangle)]
pub extern "C" fn salevoni_internal_separator(out: &mut [u8], a: &[u8], b: &[u8]) -> SalevoniSize
    ensures { WroteOut out.old 0 (separator a.now b.now) result out.new }
{
    pieces::pieces::salevoni_internal_separator(out, a, b)
}

// A short word not below a word.
#[unsafe(no_mangle)]
pub extern "C" fn salevoni_short_succ(out: &mut [u8], a: &[u8]) -> SalevoniSize
    ensures { WroteOut out.old 0 (short_succ a.now) result out.new }
{
    pieces::pieces::salevoni_short_succ(out, a)
}
