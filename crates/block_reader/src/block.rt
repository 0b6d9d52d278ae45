// Reading a block. A place in it is a number: where an entry starts.
ghost use Rattle.std.specs.Prelude.{ℕ, ◌≡◌, ◌&&◌, List, [], ◌+◌, ◌*◌, ◌≤◌, ◌<◌, true, None, MatchOption, eqb, length, take, drop};
ghost use Rattle.std.specs.Bool.{OnTrue};
ghost use Rattle.std.specs.Option.{option_copied};
ghost use Rattle.codec.specs.Answers.{given};
ghost use Rattle.codec.specs.Bytes.{numbers, same_bytes};
ghost use Rattle.blocks.specs.Block.{head, entry};
ghost use Rattle.blocks.specs.Formed.{is_formed, is_handle, bloom_name, entry_fits, enough};
ghost use Rattle.blocks.specs.Search.{seek_in, first_in, in_order, any_order};
ghost use Rattle.block_reader.specs.Said.{kind_of, entry_answer, key_left, place_in, next_in, Said};
ghost use Rattle.block_reader.specs.declared.block.Which.{Which};
ghost use Rattle.block_reader.specs.Steps.{head_after, head_answer, FreshAt, rows_of, Laid, restart_at, marks, filled_from, Passes, Handed, TakenAt, Told, From, Chosen, BelowAt};

use codec::blockhandle::one_handle;
use codec::fixed::FixedInt;
use codec::limits::within;
use codec::put::put_bytes;
use codec::varint::read_varint;
use keys::cmp::same;
use keys::key_types::cmp_target;
use std::marker::Model;

#[derive(Clone, Copy, Debug, PartialEq, Eq)]
pub enum Kind {
    Data,
    Index,
    Metaindex,
}

// An entry that starts the rest of a block: how many bytes its key shares with the key before, how many it has, where in the
// rest its value starts and how many bytes that has.
#[derive(Clone, Copy, Debug, PartialEq, Eq)]
pub struct EntryRead {
    pub shared: usize,
    pub key_len: usize,
    pub value_at: usize,
    pub value_len: usize,
}

// An entry of a block: where it starts, how many bytes its key has, where its value starts and how many bytes that has.
#[derive(Clone, Copy, Debug, PartialEq, Eq)]
pub struct Entry {
    pub start: usize,
    pub key_len: usize,
    pub value_at: usize,
    pub value_len: usize,
}

// Why a block gives no answer: no entry starts at the place given, or the block is malformed.
#[derive(Clone, Copy, Debug, PartialEq, Eq, Drop)]
pub enum BlockError {
    NoPlace,
    Bad,
}

// Where the restarts start, which is where the entries end, and how many there are.
#[derive(Clone, Copy, Debug, PartialEq, Eq)]
pub struct Rows {
    pub end: usize,
    pub count: usize,
}

// Which entry a place stands for: the one that starts there, or the one after it.
#[derive(Clone, Copy, Debug, PartialEq, Eq)]
pub enum Which {
    Here,
    After,
}

// The numbers that start an entry, and how many bytes they take.
#[derive(Clone, Copy)]
struct Head {
    shared: usize,
    fresh: usize,
    value_size: usize,
    size: usize,
}

// Where the check goes on after an entry: the place, and the number of the next restart.
#[derive(Clone, Copy)]
struct Passed {
    at: usize,
    mark: usize,
}

// A block with the layout that its last bytes tell.
#[derive(Clone, Copy)]
struct Block<'a> {
    bytes: &'a [u8],
    end: usize,
    count: usize,
    ghost laid: { Laid bytes.now end count },
}

// The key of the entry that was read last, which the next one's key shares with: the first len bytes. No key at first.
#[derive(Drop)]
pub struct LastKey {
    bytes: [u8; 1032],
    len: usize,
}

impl Model for LastKey {
    ghost Value = { List ℕ };

    ghost view = { λ k. take k.len k.bytes };

    ghost invariant = { λ k. k.len ≤ 1032 };
}

// The numbers that start the rest of a block, each read from what is left after the one before.
fn long_head(rest: &[u8]) -> Option<Head>
    ensures { result ≡ head_answer (head rest.now) }
{
    let shared = read_varint(rest)?;
    let second = &rest[shared.size..];
    let fresh = read_varint(second)?;
    let third = &second[fresh.size..];
    let value = read_varint(third)?;
    Some(Head {
        shared: shared.value,
        fresh: fresh.value,
        value_size: value.value,
        size: shared.size + fresh.size + value.size,
    })
}

// The same; mostly each of the three is one byte.
fn read_head(rest: &[u8]) -> Option<Head>
    ensures { result ≡ head_answer (head rest.now) }
{
    match *rest {
        [shared, fresh, value, ..] if shared < 128 && fresh < 128 && value < 128 => Some(Head {
            shared: usize::from(shared),
            fresh: usize::from(fresh),
            value_size: usize::from(value),
            size: 3,
        }),
        _ => long_head(rest),
    }
}

// The numbers of an entry after a key of n bytes: it shares no more, and lies within the rest.
fn head_after(rest: &[u8], n: usize) -> Option<Head>
    ensures { result ≡ head_answer (head_after n rest.now) }
{
    let head = read_head(rest)?;
    if n < head.shared {
        return None;
    }
    let room = rest.len() - head.size;
    if room < head.fresh || room - head.fresh < head.value_size {
        return None;
    }
    Some(head)
}

// The entry that starts the rest of a block's entries, after the key that is the first key_len bytes of key. Its own key then
// stands at the front of key.
pub fn read_entry(rest: &[u8], key: &mut [u8], key_len: usize) -> Option<EntryRead>
    ensures said { result ≡ entry_answer (length key.old) (entry 0 (take key_len key.old) rest.now) }
    ensures left { key.new ≡ key_left key.old (entry 0 (take key_len key.old) rest.now) }
{
    let head = head_after(rest, key_len.min(key.len()))?;
    let end = head.size + head.fresh;
    let key_len = put_bytes(key, head.shared, &rest[head.size..end]).ok()?;
    Some(EntryRead {
        shared: head.shared,
        key_len,
        value_at: end,
        value_len: head.value_size,
    })
}

impl LastKey {
    pub fn new() -> Self
        ensures { result ≡ [] }
    {
        LastKey {
            bytes: [0; 1032],
            len: 0,
        }
    }

    pub fn as_slice(&self) -> &[u8]
        ensures { result.now ≡ self.now }
    {
        &self.bytes[..self.len]
    }

    // Becomes the same key as another.
    pub fn copy_from(&mut self, key: &LastKey)
        ensures { self.new ≡ key.now }
    {
        let n = key.len;
        self.bytes[..n].copy_from_slice(&key.bytes[..n]);
        self.len = n;
    }

    // The entry that starts at a place of d, with the place of its value in d; none where its key has more than 1,032 bytes.
    pub fn read(&mut self, d: &[u8], at: usize) -> Option<EntryRead>
        ensures { TakenAt d.now at self.old result self.new }
    {
        if d.len() < at {
            return None;
        }
        let read = read_entry(&d[at..], &mut self.bytes, self.len)?;
        self.len = read.key_len;
        Some(EntryRead {
            value_at: at + read.value_at,
            ..read
        })
    }
}

// The key of the entry that starts at a place of d, if it shares nothing: a part of d.
fn fresh_key(d: &[u8], at: usize) -> Option<&[u8]>
    requires { at ≤ length d.now }
    ensures { FreshAt d.now at (option_copied result) }
{
    let rest = &d[at..];
    let head = head_after(rest, 0)?;
    let end = head.size + head.fresh;
    Some(&rest[head.size..end])
}

// Where the restarts of a block start, and how many there are: at least one.
pub fn layout(s: &[u8]) -> Option<Rows>
    ensures { result ≡ given (rows_of s.now) }
{
    let last = s.len().checked_sub(4)?;
    let count = u32::read(s, last)? as usize;
    if count < 1 || last / 4 < count {
        return None;
    }
    Some(Rows {
        end: last - 4 * count,
        count,
    })
}

// Whether s is one handle and nothing more.
fn is_handle(s: &[u8]) -> bool
    ensures { result ≡ is_handle s.now }
{
    one_handle(s).is_some()
}

// Whether a key is the name of the metaindex entry for the filter.
pub fn is_bloom(key: &[u8]) -> bool
    ensures { result ≡ same_bytes key.now bloom_name }
{
    same(key, b"filter.leveldb.BuiltinBloomFilter2")
}

// Whether a key and its value are within the limits of a kind of block.
fn in_limits(kind: Kind, key: &[u8], value: &[u8]) -> bool
    ensures { result ≡ entry_fits (kind_of kind) (record { key = key.entry.now; value = value.now }) }
{
    match kind {
        Kind::Data => within(9, 1032, key.len()) && value.len() <= 32768,
        Kind::Index => within(9, 1032, key.len()) && is_handle(value),
        Kind::Metaindex => within(1, 1032, key.len()) && (!is_bloom(key) || is_handle(value)),
    }
}

// Whether a block of a kind may be without entries, and has the one restart then.
fn empty_formed(kind: Kind, count: usize) -> bool
    ensures { result ≡ eqb count 1 && enough (kind_of kind) [] }
{
    match kind {
        Kind::Data => false,
        Kind::Index | Kind::Metaindex => count == 1,
    }
}

impl<'a> Block<'a> {
    // The block that some bytes are, if they tell a layout.
    fn new(bytes: &'a [u8]) -> Option<Self>
        ensures { MatchOption result (given (rows_of bytes.now) ≡ None) (λ b. b.bytes.now ≡ bytes.now) }
    {
        let Rows { end, count } = layout(bytes)?;
        Some(Block { bytes, end, count })
    }

    fn entries(&self) -> &'a [u8]
        ensures { result.now ≡ take self.now.end self.now.bytes.now }
    {
        &self.bytes[..self.end]
    }

    fn restart(&self, j: usize) -> usize
        requires { j < self.now.count }
        ensures { result ≡ restart_at self.now.bytes.now self.now.end j }
    {
        u32::read(self.bytes, self.end + 4 * j).unwrap() as usize
    }

    // Whether restart j is a place.
    fn marked(&self, j: usize, at: usize) -> bool
        ensures { result ≡ marks at (drop j (numbers self.now.count (drop self.now.end self.now.bytes.now))) }
    {
        j < self.count && self.restart(j) == at
    }

    // One entry of the check: it is within the limits, and shares nothing if the next restart is its place.
    fn pass(&self, kind: Kind, at: usize, key: &mut LastKey, mark: usize) -> Option<Passed>
        requires { (at < self.now.end) × (mark ≤ self.now.count) }
        ensures { Passes (kind_of kind) (take self.now.end self.now.bytes.now) (numbers self.now.count (drop self.now.end self.now.bytes.now)) at key.old mark result key.new }
    {
        let d = self.entries();
        let read = key.read(d, at)?;
        let next = read.value_at + read.value_len;
        if !in_limits(kind, key.as_slice(), &d[read.value_at..next]) {
            return None;
        }
        if !self.marked(mark, at) {
            return Some(Passed { at: next, mark });
        }
        if read.shared == 0 {
            Some(Passed {
                at: next,
                mark: mark + 1,
            })
        } else {
            None
        }
    }

    // Whether the entries are each within the limits of a kind, and each restart stands at one that shares nothing.
    fn filled(&self, kind: Kind) -> bool
        ensures { result ≡ filled_from (kind_of kind) (take self.now.end self.now.bytes.now) 0 [] (numbers self.now.count (drop self.now.end self.now.bytes.now)) }
    {
        let mut key = LastKey::new();
        let mut at: usize = 0;
        let mut mark: usize = 0;
        while at < self.end {
            let Some(passed) = self.pass(kind, at, &mut key, mark) else {
                return false;
            };
            at = passed.at;
            mark = passed.mark;
        }
        mark == self.count
    }

    // A restart that passes a test, or the first place: the last such restart, if those that pass come before all others.
    fn last_restart<F: Fn(usize) -> bool>(&self, passes: F) -> usize
        requires { F.IsAlwaysCallable passes }
        ensures { Chosen self.now.bytes.now self.now.end self.now.count (λ r. F.post passes r true) result }
    {
        let mut left: usize = 0;
        let mut right: usize = self.count - 1;
        let mut from: usize = 0;
        while left < right {
            let mid = left + (right - left + 1) / 2;
            let r = self.restart(mid);
            if passes(r) {
                left = mid;
                from = r;
            } else {
                right = mid - 1;
            }
        }
        from
    }

    // The last restart that is not above a place.
    fn restart_before(&self, at: usize) -> usize
        requires { at < self.now.end }
        ensures { (which : Which) → From self.now.bytes.now (take self.now.end self.now.bytes.now) (place_in which at) any_order result }
    {
        self.last_restart(|r| r <= at)
    }

    // Whether the entry at a restart is below a target: it shares nothing, so its key is compared where it stands.
    fn is_below(&self, r: usize, word: &[u8], sequence: u64) -> bool
        ensures { OnTrue result (BelowAt (take self.now.end self.now.bytes.now) (record { word = word.now; edition = sequence }) r) }
    {
        if self.end <= r {
            return false;
        }
        let Some(key) = fresh_key(self.entries(), r) else {
            return false;
        };
        cmp_target(key, word, sequence).is_lt()
    }

    // A restart from which only entries below a target are skipped.
    fn seek_restart(&self, word: &[u8], sequence: u64) -> usize
        ensures { From self.now.bytes.now (take self.now.end self.now.bytes.now) (seek_in (record { word = word.now; edition = sequence })) in_order result }
    {
        self.last_restart(|r| self.is_below(r, word, sequence))
    }
}

// Whether s is a well-formed block of a kind.
pub fn is_formed(s: &[u8], kind: Kind) -> bool
    ensures { result ≡ is_formed (kind_of kind) s.now }
{
    let Some(block) = Block::new(s) else {
        return false;
    };
    if block.restart(0) != 0 {
        return false;
    }
    if block.end == 0 {
        return empty_formed(kind, block.count);
    }
    block.filled(kind)
}

// An entry found: its key goes to the front of the key buffer, if there is room for it.
fn hand(
    key: &mut [u8],
    found: &[u8],
    start: usize,
    read: EntryRead,
) -> Result<Option<Entry>, BlockError>
    ensures { Handed key.old found.now start read.value_at read.value_len result key.new }
{
    let Ok(key_len) = put_bytes(key, 0, found) else {
        return Err(BlockError::Bad);
    };
    Ok(Some(Entry {
        start,
        key_len,
        value_at: read.value_at,
        value_len: read.value_len,
    }))
}

// The entry at a place of d, after the key before it, or none at the end.
fn entry_here(
    d: &[u8],
    at: usize,
    before: &mut LastKey,
    key: &mut [u8],
) -> Result<Option<Entry>, BlockError>
    requires { at ≤ length d.now }
    ensures { Told d.now at before.old first_in key.old result key.new }
{
    if at == d.len() {
        return Ok(None);
    }
    let read = before.read(d, at).ok_or(BlockError::Bad)?;
    hand(key, before.as_slice(), at, read)
}

// The entry after the one at a place of d, with the key before that one.
fn entry_after(
    d: &[u8],
    at: usize,
    before: &mut LastKey,
    key: &mut [u8],
) -> Result<Option<Entry>, BlockError>
    requires { at < length d.now }
    ensures { Told d.now at before.old (next_in at) key.old result key.new }
{
    let read = before.read(d, at).ok_or(BlockError::Bad)?;
    entry_here(d, read.value_at + read.value_len, before, key)
}

// The first entry.
pub fn first(s: &[u8], key: &mut [u8]) -> Result<Option<Entry>, BlockError>
    ensures { Said s.now first_in any_order key.old result key.new }
{
    let block = Block::new(s).ok_or(BlockError::Bad)?;
    let mut before = LastKey::new();
    entry_here(block.entries(), 0, &mut before, key)
}

// The entry at a place of d or the one after it, read from a restart on.
fn walk(
    d: &[u8],
    from: usize,
    at: usize,
    which: Which,
    key: &mut [u8],
) -> Result<Option<Entry>, BlockError>
    requires { (from ≤ length d.now) × (at < length d.now) }
    ensures { Told d.now from [] (place_in which at) key.old result key.new }
{
    let mut before = LastKey::new();
    let mut p = from;
    while p < at {
        let read = before.read(d, p).ok_or(BlockError::Bad)?;
        p = read.value_at + read.value_len;
    }
    if p != at {
        return Err(BlockError::NoPlace);
    }
    match which {
        Which::Here => entry_here(d, at, &mut before, key),
        Which::After => entry_after(d, at, &mut before, key),
    }
}

// The entry that starts at a place, or the one after it; no place where no entry starts there.
pub fn by_place(
    s: &[u8],
    at: usize,
    which: Which,
    key: &mut [u8],
) -> Result<Option<Entry>, BlockError>
    ensures { Said s.now (place_in which at) any_order key.old result key.new }
{
    let block = Block::new(s).ok_or(BlockError::Bad)?;
    if block.end <= at {
        return Err(BlockError::NoPlace);
    }
    let from = block.restart_before(at);
    walk(block.entries(), from, at, which, key)
}

// The first entry of d from a place on that is not below a target.
fn scan(
    d: &[u8],
    from: usize,
    word: &[u8],
    sequence: u64,
    key: &mut [u8],
) -> Result<Option<Entry>, BlockError>
    requires { from ≤ length d.now }
    ensures { Told d.now from [] (seek_in (record { word = word.entry.now; edition = sequence })) key.old result key.new }
{
    let mut before = LastKey::new();
    let mut at = from;
    while at < d.len() {
        let read = before.read(d, at).ok_or(BlockError::Bad)?;
        if !cmp_target(before.as_slice(), word, sequence).is_lt() {
            return hand(key, before.as_slice(), at, read);
        }
        at = read.value_at + read.value_len;
    }
    Ok(None)
}

// The first entry that is not below a target, a user key and a sequence: by binary search over the restarts and then a scan.
pub fn seek(
    s: &[u8],
    word: &[u8],
    sequence: u64,
    key: &mut [u8],
) -> Result<Option<Entry>, BlockError>
    ensures { Said s.now (seek_in (record { word = word.entry.now; edition = sequence })) in_order key.old result key.new }
{
    let block = Block::new(s).ok_or(BlockError::Bad)?;
    let from = block.seek_restart(word, sequence);
    scan(block.entries(), from, word, sequence, key)
}
