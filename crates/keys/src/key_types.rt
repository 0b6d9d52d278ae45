// Internal keys: a user key, and then 8 bytes, least first, of sequence * 256 + kind. A key shorter than 8 bytes stands for the
// empty user key, with the number that its bytes make in the tag's place, so that every function answers on any bytes.
ghost use Rattle.std.specs.Prelude.{◌≡◌, ◌/◌, ◌%◌, ◌<◌, length};
ghost use Rattle.codec.specs.Bytes.{number_of};
ghost use Rattle.codec.specs.Put.{Wrote};
ghost use Rattle.keys.specs.Answers.{order_answer, kind_answer, key_answer};
ghost use Rattle.keys.specs.Order.{user_of, tag_of, internal, point_of, by_point, below};

use crate::cmp::cmp;
use codec::fixed::FixedInt;
use codec::put::{NoRoom, end_of, put_bytes};
use std::cmp::Ordering;

#[derive(Clone, Copy, Debug, PartialEq, Eq, Drop)]
pub enum ValueType {
    TypeDeletion,
    TypeValue,
}

// What a kind byte says: 0 is a deletion, any other a value.
impl From<u8> for ValueType {
    ghost from_gives = { λ kind result. result ≡ kind_answer kind };

    fn from(kind: u8) -> ValueType {
        if kind == 0 {
            ValueType::TypeDeletion
        } else {
            ValueType::TypeValue
        }
    }
}

// A tag's parts.
#[derive(Clone, Copy, Debug, PartialEq, Eq, Drop)]
pub struct Tag {
    pub kind: ValueType,
    pub sequence: u64,
}

// What parsing a key finds: how many bytes its user key has, its sequence and its kind.
#[derive(Clone, Copy, Debug, PartialEq, Eq, Drop)]
pub struct ParsedKey {
    pub user_len: usize,
    pub sequence: u64,
    pub kind: ValueType,
}

// A tag's parts: a kind byte other than 0 counts as a value.
pub fn parse_tag(tag: u64) -> Tag
    ensures { (result.kind ≡ kind_answer (tag % 256)) × (result.sequence ≡ tag / 256) }
{
    Tag {
        kind: ValueType::from((tag % 256) as u8),
        sequence: tag / 256,
    }
}

// The user key: all but the last 8 bytes.
pub fn user_key(key: &[u8]) -> &[u8]
    ensures { result.now ≡ user_of key.now }
{
    &key[..key.len().saturating_sub(8)]
}

// The number that fewer than eight bytes make, least first.
fn number_of(s: &[u8]) -> u64
    requires { length s.now < 8 }
    ensures { result ≡ number_of s.now }
{
    let mut bytes = [0; 8];
    bytes[..s.len()].copy_from_slice(s);
    u64::from_le_bytes(bytes)
}

// The tag: the number that the last 8 bytes make, or all of them where there are fewer.
pub fn tag_of(key: &[u8]) -> u64
    ensures { result ≡ tag_of key.now }
{
    match key.last_chunk() {
        Some(tag) => u64::from_le_bytes(*tag),
        None => number_of(key),
    }
}

// The parts of a key, where it has 8 bytes.
pub fn parse_internal_key(key: &[u8]) -> Option<ParsedKey>
    ensures { result ≡ key_answer key.now }
{
    let (word, tag) = key.split_last_chunk()?;
    let Tag { kind, sequence } = parse_tag(u64::from_le_bytes(*tag));
    Some(ParsedKey {
        user_len: word.len(),
        sequence,
        kind,
    })
}

// Writes the internal key of a user key, a sequence (its low 56 bits) and a kind at a place of out.
pub fn build_internal_key(
    out: &mut [u8],
    at: usize,
    word: &[u8],
    sequence: u64,
    kind: u8,
) -> Result<usize, NoRoom>
    ensures { Wrote out.old at (internal word.now sequence kind) result out.new }
{
    end_of(out.len(), at, word.len() + 8)?;
    let next = put_bytes(out, at, word)?;
    let tag = sequence % 0x0100_0000_0000_0000 * 256 + u64::from(kind);
    tag.write(out, next)
}

// A key against a target, a user key and a sequence: user keys by bytes; equal ones by sequence, the larger first; the kind
// is ignored.
pub fn cmp_target(key: &[u8], word: &[u8], sequence: u64) -> Ordering
    ensures { result ≡ order_answer (by_point (point_of key.now) (record { word = word.entry.now; edition = sequence })) }
{
    match cmp(user_key(key), word) {
        Ordering::Equal => sequence.cmp(&(tag_of(key) / 256)),
        apart => apart,
    }
}

// Two keys in that order.
pub fn cmp_internal_key(a: &[u8], b: &[u8]) -> Ordering
    ensures { result ≡ order_answer (by_point (point_of a.now) (point_of b.now)) }
{
    cmp_target(a, user_key(b), tag_of(b) / 256)
}

// Whether a key is below another.
pub fn key_below(a: &[u8], b: &[u8]) -> bool
    ensures { result ≡ below a.now b.now }
{
    cmp_internal_key(a, b).is_lt()
}
