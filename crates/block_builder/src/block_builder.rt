// A block being built, for data blocks, the index and the metaindex alike: the entries go into a lent run of bytes, where the
// restarts start into a lent run of 32-bit numbers. The builder itself is a value: counts and the last key. Everything is
// decided from these and the runs' lengths before anything is written.
ghost use Rattle.std.specs.Prelude.{◌≡◌, cond, [], ◌∷◌, ◌++◌, ◌+◌, ◌*◌, ◌-◌, ◌^◌, ◌≤◌, ◌<◌, min, max, length, take};
ghost use Rattle.codec.specs.Bytes.{bytes_of, fours};
ghost use Rattle.codec.specs.Put.{put, Wrote};
ghost use Rattle.blocks.specs.Block.{head_bytes, entry_bytes, sharing, tail_bytes};
ghost use Rattle.blocks.specs.Count.{count_size};
ghost use Rattle.block_builder.specs.Builder.{count_in, count_taken, new_builder, builder_with, CountedIs, AddedIs};
ghost use Rattle.block_builder.specs.Plan.{plan_of, size_with};

use codec::fixed::{FixedInt, write_u32s};
use codec::put::{NoRoom, end_of, put_bytes};
use codec::varint::{varint_len, write_varint};
use keys::cmp::common_len;

// The interval of restarts; the entry bytes, the restarts and the entries since the last restart; the last key, which is the
// first len bytes of last. The library for C hands it out as it is.
#[repr(C)]
#[derive(Clone, Copy)]
pub struct BlockBuilder {
    pub interval: usize,
    pub bytes: usize,
    pub restarts: usize,
    pub since: usize,
    pub len: usize,
    pub last: [u8; 1032],
}

// What a builder counts, and the key before the next one: of a builder, nothing is copied.
#[derive(Clone, Copy)]
pub struct Counts<'a> {
    pub interval: usize,
    pub bytes: usize,
    pub restarts: usize,
    pub since: usize,
    pub last: &'a [u8],
}

// What an entry shares, and the counts with it.
#[derive(Clone, Copy)]
struct Plan {
    shared: usize,
    bytes: usize,
    restarts: usize,
    since: usize,
}

// The size of a block of so many entry bytes and restarts, of which it is written with one at least, held at the largest number.
fn block_size(bytes: usize, restarts: usize) -> usize
    ensures { result ≡ min (2 ^ 64 - 1) (bytes + 4 * max 1 restarts + 4) }
{
    let tail = restarts.max(1).saturating_mul(4).saturating_add(4);
    bytes.saturating_add(tail)
}

impl Counts<'_> {
    // How much a key shares with the key before.
    fn shared_len(self, key: &[u8]) -> usize
        ensures { result ≡ sharing self.entry.interval self.entry.since self.entry.last.now key.now }
    {
        if self.since != self.interval {
            common_len(self.last, key)
        } else {
            0
        }
    }

    // Everything that is decided from numbers and keys; no room, where the entry cannot be counted.
    fn plan(self, key: &[u8], value_len: usize) -> Result<Plan, NoRoom>
        ensures { result ≡ plan_of self.entry.interval (count_taken self.entry) key.now value_len }
    {
        if key.len() > 1032 {
            return Err(NoRoom);
        }
        let shared = self.shared_len(key);
        let fresh = key.len() - shared;
        // all but the value
        let head = varint_len(shared) + varint_len(fresh) + varint_len(value_len) + fresh;
        let size = head.checked_add(value_len).ok_or(NoRoom)?;
        let bytes = self.bytes.checked_add(size).ok_or(NoRoom)?;
        if self.since == self.interval {
            let restarts = self.restarts.checked_add(1).ok_or(NoRoom)?;
            Ok(Plan {
                shared,
                bytes,
                restarts,
                since: 1,
            })
        } else {
            let since = self.since.checked_add(1).ok_or(NoRoom)?;
            Ok(Plan {
                shared,
                bytes,
                restarts: self.restarts,
                since,
            })
        }
    }

    // The block's size with one entry more, were it finished then, held at the largest number; and that where the entry cannot be
    // counted.
    pub fn size_with(self, key: &[u8], value_len: usize) -> usize
        ensures { result ≡ size_with self.entry.interval (count_taken self.entry) key.now value_len }
    {
        match self.plan(key, value_len) {
            Ok(plan) => block_size(plan.bytes, plan.restarts),
            Err(NoRoom) => usize::MAX,
        }
    }
}

// Writes an entry's three varints.
fn put_head(
    out: &mut [u8],
    at: usize,
    shared: usize,
    fresh: usize,
    value_len: usize,
) -> Result<usize, NoRoom>
    requires { at + length (head_bytes shared fresh value_len) ≤ length out.old }
    ensures { Wrote out.old at (head_bytes shared fresh value_len) result out.new }
{
    let second = write_varint(out, at, shared)?;
    let third = write_varint(out, second, fresh)?;
    write_varint(out, third, value_len)
}

// Writes an entry, whose key shares so much with the key before.
fn put_entry(
    out: &mut [u8],
    at: usize,
    shared: usize,
    key: &[u8],
    value: &[u8],
) -> Result<usize, NoRoom>
    requires { (shared ≤ length key.now) × (at + length (entry_bytes shared (record { key = key.now; value = value.now })) ≤ length out.old) }
    ensures { Wrote out.old at (entry_bytes shared (record { key = key.entry.now; value = value.now })) result out.new }
{
    let tail = put_head(out, at, shared, key.len() - shared, value.len())?;
    let rest = put_bytes(out, tail, &key[shared..])?;
    put_bytes(out, rest, value)
}

// Writes restarts and their count.
fn put_tail(out: &mut [u8], at: usize, restarts: &[u32]) -> Result<usize, NoRoom>
    ensures { Wrote out.old at (fours restarts.now ++ bytes_of 4 (length restarts.now)) result out.new }
{
    end_of(out.len(), at, 4 * restarts.len() + 4)?;
    let count = write_u32s(out, at, restarts)?;
    let n = (restarts.len() % 4294967296) as u32;
    n.write(out, count)
}

impl BlockBuilder {
    // No entries.
    pub fn new(interval: usize) -> BlockBuilder
        ensures { result ≡ new_builder interval }
    {
        BlockBuilder {
            interval,
            bytes: 0,
            restarts: 0,
            since: interval,
            len: 0,
            last: [0; 1032],
        }
    }

    // What it counts, and its last key.
    pub fn counts(&self) -> Counts<'_>
        ensures interval { result.interval ≡ self.now.interval }
        ensures counts { count_taken result ≡ count_in self.now }
    {
        let last: &[u8] = &self.last;
        Counts {
            interval: self.interval,
            bytes: self.bytes,
            restarts: self.restarts,
            since: self.since,
            last: &last[..self.len.min(last.len())],
        }
    }

    // Counts an entry as planned, after whose key the next one comes.
    fn enter(&mut self, plan: Plan, key: &[u8])
        ensures { self.new ≡ builder_with self.old (record { bytes = plan.bytes; restarts = plan.restarts; since = plan.since; last = key.now }) key.now }
    {
        self.bytes = plan.bytes;
        self.restarts = plan.restarts;
        self.since = plan.since;
        self.len = key.len();
        // a key that was planned fits
        let _ = put_bytes(&mut self.last, 0, key);
    }

    // The block's size, were it finished now, held at the largest number.
    pub fn size_estimate(&self) -> usize
        ensures { result ≡ min (2 ^ 64 - 1) (count_size (count_in self.now)) }
    {
        block_size(self.bytes, self.restarts)
    }

    // Counts one entry more; nothing is written.
    pub fn count(&mut self, key: &[u8], value_len: usize) -> Result<(), NoRoom>
        ensures { CountedIs self.old key.now value_len result self.new }
    {
        let plan = self.counts().plan(key, value_len)?;
        self.enter(plan, key);
        Ok(())
    }

    // Adds an entry to the block that starts at a place of out.
    pub fn add(
        &mut self,
        out: &mut [u8],
        at: usize,
        restarts: &mut [u32],
        key: &[u8],
        value: &[u8],
    ) -> Result<(), NoRoom>
        ensures { AddedIs self.old at out.old out.new restarts.old restarts.new key.now value.now result self.new }
    {
        let plan = self.counts().plan(key, value.len())?;
        end_of(out.len(), at, plan.bytes)?;
        if restarts.len() < plan.restarts {
            return Err(NoRoom);
        }
        let Ok(mark) = u32::try_from(self.bytes) else {
            return Err(NoRoom);
        };
        put_entry(out, at + self.bytes, plan.shared, key, value)?;
        if self.since == self.interval {
            restarts[self.restarts] = mark;
        }
        self.enter(plan, key);
        Ok(())
    }

    // Writes the restarts and their count behind the entries of the block that starts at a place of out.
    pub fn finish(&self, out: &mut [u8], at: usize, restarts: &[u32]) -> Result<usize, NoRoom>
        ensures { Wrote out.old (at + self.now.bytes) (tail_bytes (take self.now.restarts restarts.now)) result out.new }
    {
        let end = end_of(out.len(), at, self.bytes)?;
        let n = self.restarts.min(restarts.len());
        if n == 0 {
            put_tail(out, end, &[0])
        } else {
            put_tail(out, end, &restarts[..n])
        }
    }
}
