// Reading a table: footer, handles and structure are tested, checksums are not. A table that the full check passes is read as
// its plain reading says; on any other the calls end, and what they give lies in the table.
ghost use Rattle.std.specs.Prelude.{◌≡◌, true, ◌-◌, ◌≤◌, ◌^◌, T, MatchResult, length};
ghost use Rattle.codec.specs.Bytes.{part};
ghost use Rattle.codec.specs.Varint.{one_handle};
ghost use Rattle.blocks.specs.Search.{in_order};
ghost use Rattle.block_reader.specs.Said.{Said};
ghost use Rattle.table.specs.Table.{ends_before};
ghost use Rattle.table.specs.Reads.{Answer, point_fits, listed, buffer_after, seek_says, lookup_says, step_says};
ghost use Rattle.reader.specs.Answers.{sought_of, looked_of, Seeks, Looks, Steps};
ghost use Rattle.reader.specs.Parts.{asked, Footed, Unread, Inside, located_of, by_handle, hit_of, Holds, Tells, Listed, Sees, Says, IsLater, OrLater, Is, Short, HeldIs, of_word, Kinded, IsKinded};

use block_reader::block;
use block_reader::block::{BlockError, Which};
use bloom::filter::bloom_hash;
use codec::blockhandle::{BlockHandle, one_handle};
use codec::limits::within;
use codec::put::put_bytes;
use filter_block::filter_block::may_match;
use keys::cmp::same;
use keys::key_types::{tag_of, user_key};
use table_block::footer;
use table_block::footer::Footer;
use table_block::refusal::Refusal;
use table_block::table_block::bloom_handle;

// Where an entry stands: where its index entry starts in the index block, and where it starts in its data block.
#[derive(Clone, Copy, Debug, PartialEq, Eq)]
pub struct Place {
    pub index: usize,
    pub entry: usize,
}

// An entry of a table: its place, how many bytes its key has, where in the table its value starts and how many bytes that has.
#[derive(Clone, Copy, Debug, PartialEq, Eq)]
pub struct Entry {
    pub place: Place,
    pub key_len: usize,
    pub value_at: usize,
    pub value_len: usize,
}

// What a seek or a step answers.
pub type Sought = Result<Option<Entry>, Refusal>;

// What a lookup finds.
#[derive(Clone, Copy, Debug, PartialEq, Eq)]
pub enum Found {
    Entry(Entry),
    Deleted(Entry),
    Absent,
}

// Where the block of an index entry stands, and where that entry starts in the index block.
#[derive(Clone, Copy)]
struct Located {
    start: usize,
    handle: BlockHandle,
}

// A table and its footer.
#[derive(Clone, Copy)]
struct Table<'a> {
    bytes: &'a [u8],
    footer: Footer,
    ghost ends: { Footed bytes.now footer },
}

// What is asked of a block: its first entry, the entry at a place or the one after it, or the first that is not below a target.
#[derive(Clone, Copy)]
enum Ask<'a> {
    First,
    Place(usize, Which),
    Target(&'a [u8], u64),
}

// A part of a table, what of it lies there.
fn part_of<'a>(table: &'a [u8], from: usize, len: usize) -> &'a [u8]
    ensures { result.now ≡ part table.now from len }
{
    let n = table.len();
    if n < from {
        return &table[n..];
    }
    if n - from < len {
        return &table[from..];
    }
    let to = from + len;
    &table[from..to]
}

// The block that an index entry's value names, in a table of len bytes.
fn by_handle(len: usize, start: usize, value: &[u8]) -> Result<Located, Refusal>
    ensures { result ≡ by_handle len start (one_handle value.now) }
{
    let handle = one_handle(value).ok_or(Refusal::Malformed)?;
    if !footer::placed(len, handle) {
        return Err(Refusal::Outside);
    }
    Ok(Located { start, handle })
}

// The same for what was found in the index block, with what it is refused where no entry starts at the place.
#[tactic(auto, unfolding(crate::specs::Parts::located_of))]
fn locate(
    len: usize,
    index: &[u8],
    absent: Refusal,
    found: Result<Option<block::Entry>, BlockError>,
) -> Result<Option<Located>, Refusal>
    requires { Inside (length index.now) found }
    ensures { result ≡ located_of len index.now absent found }
{
    match found {
        Err(BlockError::Bad) => Err(Refusal::Malformed),
        Err(BlockError::NoPlace) => Err(absent),
        Ok(None) => Ok(None),
        Ok(Some(entry)) => {
            let to = entry.value_at + entry.value_len;
            let block = by_handle(len, entry.start, &index[entry.value_at..to])?;
            Ok(Some(block))
        }
    }
}

// What was found in the data block at an offset, whose index entry starts at a place, as an entry of the table.
#[tactic(auto, unfolding(crate::specs::Parts::hit_of))]
fn hit(index: usize, offset: usize, found: Result<Option<block::Entry>, BlockError>) -> Sought
    requires { Inside (2 ^ 64 - 1 - offset) found }
    ensures { result ≡ hit_of index offset found }
{
    match found {
        Err(BlockError::Bad) => Err(Refusal::Malformed),
        Err(BlockError::NoPlace) => Err(Refusal::NoPlace),
        Ok(None) => Ok(None),
        Ok(Some(entry)) => Ok(Some(Entry {
            place: Place {
                index,
                entry: entry.start,
            },
            key_len: entry.key_len,
            value_at: offset + entry.value_at,
            value_len: entry.value_len,
        })),
    }
}

// What is asked for, in the bytes of one block.
fn find_in(
    bytes: &[u8],
    ask: Ask<'_>,
    buf: &mut [u8; 1032],
) -> Result<Option<block::Entry>, BlockError>
    ensures { Said bytes.now (asked ask.entry) in_order buf.old result buf.new }
{
    match ask {
        Ask::First => block::first(bytes, buf),
        Ask::Place(at, which) => block::by_place(bytes, at, which, buf),
        Ask::Target(word, edition) => block::seek(bytes, word, edition, buf),
    }
}

// An entry found, if it is of a word.
fn of_word(answer: Sought, word: &[u8], buf: &[u8; 1032]) -> Sought
    requires { Short answer }
    ensures { (a : Answer) → answer ≡ sought_of a → Holds a buf.now → result ≡ sought_of (of_word word.now a) }
{
    let Some(found) = answer? else {
        return Ok(None);
    };
    if !same(user_key(&buf[..found.key_len]), word) {
        return Ok(None);
    }
    Ok(Some(found))
}

impl<'a> Table<'a> {
    fn open(bytes: &'a [u8]) -> Result<Self, Refusal>
        ensures { MatchResult result (λ t. t.bytes.now ≡ bytes.now) (Unread bytes.now) }
    {
        let footer = footer::decode(bytes)?;
        Ok(Table { bytes, footer })
    }

    // The block of the index entry that is asked for, with what it is refused where no entry starts at the place.
    fn find_index(
        &self,
        ask: Ask<'_>,
        absent: Refusal,
        buf: &mut [u8; 1032],
    ) -> Result<Option<Located>, Refusal>
        requires { Listed absent }
        ensures { Sees self.now.bytes.now self.now.footer.index absent (asked ask.entry) result }
    {
        let at = self.footer.index;
        let index = part_of(self.bytes, at.offset, at.size);
        let found = find_in(index, ask, buf);
        locate(self.bytes.len(), index, absent, found)
    }

    // What is asked for, in one block of the table.
    fn find_block(&self, block: Located, ask: Ask<'_>, buf: &mut [u8; 1032]) -> Sought
        requires { ends_before (length self.now.bytes.now) block.handle.offset block.handle.size ≡ true }
        ensures { Tells sought_of self.now.bytes.now (Says self.now.bytes.now block.start block.handle (asked ask.entry)) result buf.new }
    {
        let at = block.handle;
        let bytes = part_of(self.bytes, at.offset, at.size);
        let found = find_in(bytes, ask, buf);
        hit(block.start, at.offset, found)
    }

    // The first entry of the block after the one whose index entry starts at a place.
    fn first_after(&self, start: usize, buf: &mut [u8; 1032]) -> Sought
        ensures { Tells sought_of self.now.bytes.now (IsLater self.now.bytes.now self.now.footer.index start) result buf.new }
    {
        let after = Ask::Place(start, Which::After);
        let Some(next) = self.find_index(after, Refusal::Malformed, buf)? else {
            return Ok(None);
        };
        self.find_block(next, Ask::First, buf)
    }

    // An answer as it is, or where it is none the first entry of the block after.
    fn or_later(&self, answer: Sought, start: usize, buf: &mut [u8; 1032]) -> Sought
        ensures { (a : Answer) → answer ≡ sought_of a → Holds a buf.old → T (listed self.now.bytes.now a) → Tells sought_of self.now.bytes.now (OrLater self.now.bytes.now self.now.footer.index start a) result buf.new }
    {
        let Some(here) = answer? else {
            return self.first_after(start, buf);
        };
        Ok(Some(here))
    }

    // The first entry that is not below a target: in the block that the index names, or the first of the block after.
    fn find(&self, word: &[u8], edition: u64, buf: &mut [u8; 1032]) -> Sought
        ensures { Tells sought_of self.now.bytes.now (Is self.now.bytes.now (seek_says self.now.bytes.now (record { word = word.entry.now; edition = edition }))) result buf.new }
    {
        let target = Ask::Target(word, edition);
        let Some(block) = self.find_index(target, Refusal::Malformed, buf)? else {
            return Ok(None);
        };
        let here = self.find_block(block, target, buf);
        self.or_later(here, block.start, buf)
    }

    // The entry after the one at a place, in its block, or the first of the block after.
    fn follow(&self, place: Place, buf: &mut [u8; 1032]) -> Sought
        ensures { Tells sought_of self.now.bytes.now (Is self.now.bytes.now (step_says self.now.bytes.now place.index place.entry)) result buf.new }
    {
        let here = Ask::Place(place.index, Which::Here);
        let Some(block) = self.find_index(here, Refusal::NoPlace, buf)? else {
            return Err(Refusal::NoPlace);
        };
        let after = Ask::Place(place.entry, Which::After);
        let next = self.find_block(block, after, buf);
        self.or_later(next, block.start, buf)
    }

    // Whether the filter that the metaindex names, if it names one, lets the data block at an offset hold a word.
    fn may_hold(&self, offset: usize, word: &[u8]) -> Result<bool, Refusal>
        ensures { HeldIs self.now.bytes.now offset word.now result }
    {
        let at = self.footer.metaindex;
        let metaindex = part_of(self.bytes, at.offset, at.size);
        let Some(at) = bloom_handle(metaindex) else {
            return Ok(true);
        };
        if !footer::placed(self.bytes.len(), at) {
            return Err(Refusal::Outside);
        }
        let filters = part_of(self.bytes, at.offset, at.size);
        let hash = bloom_hash(word);
        Ok(may_match(filters, offset, hash))
    }

    // The newest entry of a word no newer than an edition: the filter is asked of the one block that the index names, and only
    // that block is read.
    fn look(&self, word: &[u8], edition: u64, buf: &mut [u8; 1032]) -> Sought
        ensures { Tells sought_of self.now.bytes.now (IsKinded self.now.bytes.now (lookup_says self.now.bytes.now (record { word = word.entry.now; edition = edition }))) result buf.new }
    {
        let target = Ask::Target(word, edition);
        let Some(block) = self.find_index(target, Refusal::Malformed, buf)? else {
            return Ok(None);
        };
        if !self.may_hold(block.handle.offset, word)? {
            return Ok(None);
        }
        let here = self.find_block(block, target, buf);
        of_word(here, word, buf)
    }
}

// An answer, with an entry's key from a buffer handed over to the front of the key buffer.
fn hand(answer: Sought, buf: &[u8; 1032], key: &mut [u8]) -> Sought
    requires { (1032 ≤ length key.old) × Short answer }
    ensures same { result ≡ answer }
    ensures handed { (a : Answer) → answer ≡ sought_of a → Holds a buf.now → key.new ≡ buffer_after a key.old }
{
    let Some(entry) = answer? else {
        return Ok(None);
    };
    let _ = put_bytes(key, 0, &buf[..entry.key_len]);
    Ok(Some(entry))
}

// Whether a word and an edition are within the limits.
#[tactic(auto, unfolding(table::specs::Reads::point_fits))]
fn fits(word: &[u8], edition: u64) -> bool
    ensures { result ≡ point_fits (record { word = word.entry.now; edition = edition }) }
{
    within(1, 1024, word.len()) && edition < 0x0100_0000_0000_0000
}

// The least entry that is not below a target, a word and an edition.
pub fn seek(table: &[u8], word: &[u8], edition: u64, key: &mut [u8]) -> Sought
    ensures { Seeks table.now (record { word = word.entry.now; edition = edition }) key.old result key.new }
{
    if !fits(word, edition) {
        return Err(Refusal::Limits);
    }
    if key.len() < 1032 {
        return Err(Refusal::Short);
    }
    let table = Table::open(table)?;
    let mut buf = [0u8; 1032];
    let found = table.find(word, edition, &mut buf);
    hand(found, &buf, key)
}

// The entry after the one at a place.
pub fn step(table: &[u8], place: Place, key: &mut [u8]) -> Sought
    ensures { Steps table.now place.index place.entry key.old result key.new }
{
    if key.len() < 1032 {
        return Err(Refusal::Short);
    }
    let table = Table::open(table)?;
    let mut buf = [0u8; 1032];
    let found = table.follow(place, &mut buf);
    hand(found, &buf, key)
}

// A lookup's answer by an entry's kind: kind byte 0 is a deletion, any other a value.
fn by_kind(answer: Sought, buf: &[u8; 1032]) -> Result<Found, Refusal>
    requires { Short answer }
    ensures { (a : Answer) → answer ≡ sought_of a → Holds a buf.now → Kinded a → result ≡ looked_of a }
{
    let Some(entry) = answer? else {
        return Ok(Found::Absent);
    };
    let deletion = tag_of(&buf[..entry.key_len]) % 256 == 0;
    if deletion {
        return Ok(Found::Deleted(entry));
    }
    Ok(Found::Entry(entry))
}

// The newest entry of a word that is no newer than an edition.
pub fn lookup(table: &[u8], word: &[u8], edition: u64, key: &mut [u8]) -> Result<Found, Refusal>
    ensures { Looks table.now (record { word = word.entry.now; edition = edition }) key.old result key.new }
{
    if !fits(word, edition) {
        return Err(Refusal::Limits);
    }
    if key.len() < 1032 {
        return Err(Refusal::Short);
    }
    let table = Table::open(table)?;
    let mut buf = [0u8; 1032];
    let found = table.look(word, edition, &mut buf);
    by_kind(hand(found, &buf, key), &buf)
}

// The value of an entry, as a part of the table: what lies there, if the entry is of another table.
pub fn value<'a>(table: &'a [u8], entry: Entry) -> &'a [u8]
    ensures { result.now ≡ part table.now entry.value_at entry.value_len }
{
    part_of(table, entry.value_at, entry.value_len)
}
