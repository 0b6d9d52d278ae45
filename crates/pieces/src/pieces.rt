// Checksums, keys and separators, and the footer.
ghost use Rattle.std.specs.Prelude.{◌≡◌};
ghost use Rattle.checksum.specs.Checksum.{crc_extend, crc_mask};
ghost use Rattle.keys.specs.Order.{internal, user_sep, separator, short_succ};
ghost use Rattle.table.specs.Table.{footer};
ghost use Rattle.table_block.specs.Answers.{footer_answer};
ghost use Rattle.pieces.specs.Numbers.{WroteOut};
ghost use Rattle.pieces.specs.Pieces.{footer_out};

use crate::numbers::SalevoniSize;
use table_block::footer::Footer;
use table_block::refusal::Refusal;

// A table's footer: 0 and where the metaindex and the index stand, or the refusal's number and zeros.
#[repr(C)]
#[derive(Clone, Copy)]
pub struct SalevoniFooter {
    pub answer: u32,
    pub meta_offset: usize,
    pub meta_size: usize,
    pub index_offset: usize,
    pub index_size: usize,
}

// The footer's answer, in numbers.
fn footer_out(answer: Result<Footer, Refusal>) -> SalevoniFooter
    ensures { result ≡ footer_out answer }
{
    match answer {
        Ok(f) => SalevoniFooter {
            answer: 0,
            meta_offset: f.metaindex.offset,
            meta_size: f.metaindex.size,
            index_offset: f.index.offset,
            index_size: f.index.size,
        },
        Err(why) => SalevoniFooter {
            answer: why.number(),
            meta_offset: 0,
            meta_size: 0,
            index_offset: 0,
            index_size: 0,
        },
    }
}

// The footer of a table.
pub fn salevoni_footer(table: &[u8]) -> SalevoniFooter
    ensures { result ≡ footer_out (footer_answer (footer table.now)) }
{
    footer_out(table_block::footer::decode(table))
}

// The checksum continued over some bytes; it starts from 0.
pub fn salevoni_crc(crc: u32, bytes: &[u8]) -> u32
    ensures { result ≡ crc_extend crc bytes.now }
{
    checksum::crc::extend(crc, bytes)
}

// The checksum as a table stores it.
pub fn salevoni_mask(crc: u32) -> u32
    ensures { result ≡ crc_mask crc }
{
    checksum::crc::mask_crc(crc)
}

// The internal key of a word, an edition and a kind.
pub fn salevoni_internal_key(out: &mut [u8], word: &[u8], edition: u64, kind: u8) -> SalevoniSize
    ensures { WroteOut out.old 0 (internal word.now edition kind) result out.new }
{
    SalevoniSize::from(keys::key_types::build_internal_key(out, 0, word, edition, kind))
}

// The separator of two words.
pub fn salevoni_separator(out: &mut [u8], a: &[u8], b: &[u8]) -> SalevoniSize
    ensures { WroteOut out.old 0 (user_sep a.now b.now) result out.new }
{
    SalevoniSize::from(keys::cmp::find_shortest_sep(out, 0, a, b))
}

// The separator of two internal keys.
pub fn salevoni_internal_separator(out: &mut [u8], a: &[u8], b: &[u8]) -> SalevoniSize
    ensures { WroteOut out.old 0 (separator a.now b.now) result out.new }
{
    SalevoniSize::from(keys::cmp::find_internal_sep(out, 0, a, b))
}

// A short word not below a word.
pub fn salevoni_short_succ(out: &mut [u8], a: &[u8]) -> SalevoniSize
    ensures { WroteOut out.old 0 (short_succ a.now) result out.new }
{
    SalevoniSize::from(keys::cmp::find_short_succ(out, 0, a))
}
