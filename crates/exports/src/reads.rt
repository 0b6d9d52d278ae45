// The full check of a table, and its reads.
ghost use Rattle.std.specs.Prelude.{◌≡◌};
ghost use Rattle.exports.specs.Reads.{verdict_number, entry_with, no_entry, sought_out, looked_out, ChecksOut, SeeksOut, LooksOut, StepsOut};

use reader::table_reader::{Entry, Found, Place, Sought, lookup, seek, step};
use table_block::refusal::Refusal;

// What a read answers, in a number, and the entry that it found: where its index entry starts in the index block and where it
// starts in its data block; how many bytes its key has; where in the table its value starts and how many bytes that has. All
// of them are 0 without an entry.
#[repr(C)]
#[derive(Clone, Copy)]
pub struct SalevoniEntry {
    pub answer: u32,
    pub index: usize,
    pub entry: usize,
    pub key_len: usize,
    pub value_at: usize,
    pub value_len: usize,
}

// The number of a verdict.
fn verdict_number(v: Result<(), Refusal>) -> u32
    ensures { result ≡ verdict_number v }
{
    match v {
        Ok(()) => 0,
        Err(e) => e.number(),
    }
}

// An entry with a number.
fn entry_with(n: u32, e: Entry) -> SalevoniEntry
    ensures { result ≡ entry_with n e }
{
    SalevoniEntry {
        answer: n,
        index: e.place.index,
        entry: e.place.entry,
        key_len: e.key_len,
        value_at: e.value_at,
        value_len: e.value_len,
    }
}

// A number alone.
fn no_entry(n: u32) -> SalevoniEntry
    ensures { result ≡ no_entry n }
{
    SalevoniEntry {
        answer: n,
        index: 0,
        entry: 0,
        key_len: 0,
        value_at: 0,
        value_len: 0,
    }
}

impl From<Sought> for SalevoniEntry {
    ghost from_gives = { λ s e. e ≡ sought_out s };

    fn from(sought: Sought) -> SalevoniEntry {
        match sought {
            Ok(Some(e)) => entry_with(0, e),
            Ok(None) => no_entry(100),
            Err(why) => no_entry(why.number()),
        }
    }
}

impl From<Result<Found, Refusal>> for SalevoniEntry {
    ghost from_gives = { λ f e. e ≡ looked_out f };

    fn from(looked: Result<Found, Refusal>) -> SalevoniEntry {
        match looked {
            Ok(Found::Entry(e)) => entry_with(0, e),
            Ok(Found::Deleted(e)) => entry_with(101, e),
            Ok(Found::Absent) => no_entry(100),
            Err(why) => no_entry(why.number()),
        }
    }
}

// The full check: 0, or the refusal's number.
pub fn salevoni_check(table: &[u8]) -> u32
    ensures { ChecksOut table.now result }
{
    verdict_number(full_check::check::check(table))
}

// The least entry that is not below a word and an edition; its key goes to the front of key.
pub fn salevoni_seek(table: &[u8], word: &[u8], edition: u64, key: &mut [u8]) -> SalevoniEntry
    ensures { SeeksOut table.now (record { word = word.entry.now; edition = edition }) key.old result key.new }
{
    SalevoniEntry::from(seek(table, word, edition, key))
}

// The newest entry of a word that is no newer than an edition; its key goes to the front of key.
pub fn salevoni_lookup(table: &[u8], word: &[u8], edition: u64, key: &mut [u8]) -> SalevoniEntry
    ensures { LooksOut table.now (record { word = word.entry.now; edition = edition }) key.old result key.new }
{
    SalevoniEntry::from(lookup(table, word, edition, key))
}

// The entry after the one at a place; its key goes to the front of key.
pub fn salevoni_step(table: &[u8], index: usize, entry: usize, key: &mut [u8]) -> SalevoniEntry
    ensures { StepsOut table.now index entry key.old result key.new }
{
    let place = Place { index, entry };
    SalevoniEntry::from(step(table, place, key))
}
