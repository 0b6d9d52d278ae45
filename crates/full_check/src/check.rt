// The full check of a table: footer, metaindex, index, filter, and then each data block. The first failure decides.
ghost use Rattle.std.specs.Prelude.{◌≡◌, List, []};
ghost use Rattle.std.proofs.Math.Option.{none, some};
ghost use Rattle.std.proofs.Math.Dec.{compare_is_eq};
ghost use Rattle.std.specs.Option.{option_copied};
ghost use Rattle.keys.specs.Order.{user_of, point_of, by_point};
ghost use Rattle.blocks.specs.Block.{Entry, last_key_of, pairs_of};
ghost use Rattle.blocks.specs.Formed.{all, rises};
ghost use Rattle.blocks.specs.Search.{readable};
ghost use Rattle.block_reader.specs.Said.{kind_of};
ghost use Rattle.block_reader.specs.Steps.{read_from};
ghost use Rattle.filters.specs.Filter.{hash};
ghost use Rattle.filters.specs.FilterBlock.{may_match};
ghost use Rattle.table.specs.Table.{follows, first_follows, bloom_handle, handle_of, full_check, less_of, contents, sealed, sorted_in, sorted_at};
ghost use Rattle.full_check.specs.Answers.{verdict_of};
ghost use Rattle.full_check.specs.Steps.{Tested, kept, Judged, stands, edge_of, ordered, lets, data_in, data_at, blocks_at, with_filter};

use block_reader::block::{Kind, LastKey, layout};
use bloom::filter::bloom_hash;
use checksum::trailer::trailer_stands;
use codec::blockhandle::{BlockHandle, one_handle};
use keys::cmp::cmp;
use keys::key_types::{key_below, user_key};
use table_block::footer;
use table_block::refusal::Refusal;
use table_block::table_block::bloom_handle;

// What a block leaves for the test of the next: its index key and its last key.
#[derive(Drop)]
struct Edge {
    index_key: LastKey,
    last_key: LastKey,
}

// The part of a block that its entries fill; none of it without a layout.
fn entries(s: &[u8]) -> &[u8]
    ensures { (es : List Entry) → readable s.now ≡ some es → read_from result.now 0 [] ≡ some es }
{
    match layout(s) {
        None => &s[..0],
        Some(rows) => &s[..rows.end],
    }
}

// The bytes of the block at a handle, if its trailer stands.
fn sealed(table: &[u8], handle: BlockHandle) -> Result<&[u8], Refusal>
    ensures { Judged (sealed table.now handle) (λ _ s. s.now ≡ contents table.now handle) result }
{
    if !trailer_stands(table, handle.offset, handle.size) {
        return Err(Refusal::Checksum);
    }
    let end = handle.offset + handle.size;
    Ok(&table[handle.offset..end])
}

// The same, if the block ends before the footer.
fn placed(table: &[u8], handle: BlockHandle) -> Result<&[u8], Refusal>
    ensures { Judged (stands table.now handle) (λ _ s. s.now ≡ contents table.now handle) result }
{
    if !footer::placed(table.len(), handle) {
        return Err(Refusal::Outside);
    }
    sealed(table, handle)
}

// Whether two internal keys are equal, kind ignored.
fn same_point(a: &[u8], b: &[u8]) -> bool
    ensures { result ≡ compare_is_eq (by_point (point_of a.now) (point_of b.now)) }
{
    !key_below(a, b) && !key_below(b, a)
}

// Whether a comes before b in a block of a kind.
fn comes_before(kind: Kind, a: &[u8], b: &[u8]) -> bool
    ensures { result ≡ less_of (kind_of kind) a.now b.now }
{
    match kind {
        Kind::Data | Kind::Index => key_below(a, b),
        Kind::Metaindex => cmp(a, b).is_lt(),
    }
}

// Whether the keys of the entries that fill d rise. If so, last becomes the last of them; of no entries it is empty.
fn keys_rise(d: &[u8], kind: Kind, last: &mut LastKey) -> bool
    ensures { Tested (rises (less_of (kind_of kind))) d.now (kept result last.new) }
{
    let mut key = LastKey::new();
    last.copy_from(&key);
    let mut at: usize = 0;
    while at < d.len() {
        let Some(read) = key.read(d, at) else {
            return false;
        };
        if at > 0 && !comes_before(kind, last.as_slice(), key.as_slice()) {
            return false;
        }
        last.copy_from(&key);
        at = read.value_at + read.value_len;
    }
    true
}

// Whether the bytes of the metaindex or the index are well formed, with keys that rise.
fn sorted_in(s: &[u8], kind: Kind) -> Result<(), Refusal>
    ensures { Judged (sorted_in (kind_of kind) s.now) (λ es _. readable s.now ≡ some es) result }
{
    if !block_reader::block::is_formed(s, kind) {
        return Err(Refusal::Malformed);
    }
    let mut last = LastKey::new();
    if keys_rise(entries(s), kind, &mut last) {
        Ok(())
    } else {
        Err(Refusal::Unordered)
    }
}

// The bytes of the metaindex or the index, if they pass.
fn sorted(table: &[u8], handle: BlockHandle, kind: Kind) -> Result<&[u8], Refusal>
    ensures { Judged (sorted_at (kind_of kind) table.now handle) (λ es s. readable s.now ≡ some es) result }
{
    let s = sealed(table, handle)?;
    sorted_in(s, kind)?;
    Ok(s)
}

// Whether a block's first key may follow the block before it; the first block has none before it.
fn key_follows(before: Option<&Edge>, key: &[u8]) -> bool
    ensures { result ≡ follows (edge_of (option_copied before.entry)) key.now }
{
    let Some(edge) = before else {
        return true;
    };
    let index_key = edge.index_key.as_slice();
    let last_key = edge.last_key.as_slice();
    key_below(last_key, key)
        && key_below(index_key, key)
        && (same_point(index_key, last_key) || cmp(user_key(index_key), user_key(key)).is_lt())
}

// The same of the first of the entries that fill d.
fn block_follows(d: &[u8], before: Option<&Edge>) -> bool
    ensures { (es : List Entry) → read_from d.now 0 [] ≡ some es → result ≡ first_follows (edge_of (option_copied before.entry)) (pairs_of es) }
{
    let mut key = LastKey::new();
    key.read(d, 0).is_some() && key_follows(before, key.as_slice())
}

// Whether the keys of the entries that fill d rise, the first may follow the block before it, and none is above a bound. If so,
// last becomes the last of them.
fn in_order(d: &[u8], before: Option<&Edge>, bound: &[u8], last: &mut LastKey) -> bool
    ensures { Tested (ordered (edge_of (option_copied before.entry)) bound.now) d.now (kept result last.new) }
{
    if !block_follows(d, before) {
        return false;
    }
    if !keys_rise(d, Kind::Data, last) {
        return false;
    }
    !key_below(bound, last.as_slice())
}

// Whether a filter block lets the data block at an offset hold a key.
fn may_hold(filter: &[u8], offset: usize, key: &[u8]) -> bool
    ensures { result ≡ may_match filter.now offset (hash (user_of key.now)) }
{
    let h = bloom_hash(user_key(key));
    filter_block::filter_block::may_match(filter, offset, h)
}

// Whether it lets that block hold the keys of the entries that fill d.
fn all_held(d: &[u8], filter: &[u8], offset: usize) -> bool
    ensures { (es : List Entry) → read_from d.now 0 [] ≡ some es → result ≡ all (lets filter.now offset) (pairs_of es) }
{
    let mut key = LastKey::new();
    let mut at: usize = 0;
    while at < d.len() {
        let Some(read) = key.read(d, at) else {
            return false;
        };
        if !may_hold(filter, offset, key.as_slice()) {
            return false;
        }
        at = read.value_at + read.value_len;
    }
    true
}

// Whether the bytes of the data block at an offset pass. If so, last becomes its last key.
fn data_in(
    s: &[u8],
    filter: &[u8],
    offset: usize,
    before: Option<&Edge>,
    bound: &[u8],
    last: &mut LastKey,
) -> Result<(), Refusal>
    ensures { Judged (data_in filter.now offset (edge_of (option_copied before.entry)) bound.now s.now) (λ ps _. last_key_of [] ps ≡ last.new) result }
{
    if !block_reader::block::is_formed(s, Kind::Data) {
        return Err(Refusal::Malformed);
    }
    let d = entries(s);
    if !in_order(d, before, bound, last) {
        return Err(Refusal::Unordered);
    }
    if !all_held(d, filter, offset) {
        return Err(Refusal::Filter);
    }
    Ok(())
}

// Whether the data block at a handle passes. If so, last becomes its last key.
fn data_at(
    table: &[u8],
    filter: &[u8],
    before: Option<&Edge>,
    bound: &[u8],
    handle: BlockHandle,
    last: &mut LastKey,
) -> Result<(), Refusal>
    ensures { Judged (data_at table.now filter.now (edge_of (option_copied before.entry)) bound.now handle) (λ ps _. last_key_of [] ps ≡ last.new) result }
{
    let s = placed(table, handle)?;
    data_in(s, filter, handle.offset, before, bound, last)
}

// The handle of an index value.
fn handle_of(value: &[u8]) -> BlockHandle
    ensures { result ≡ handle_of value.now }
{
    one_handle(value).unwrap_or(BlockHandle { offset: 0, size: 0 })
}

// The data blocks that the index entries that fill d name, one after the other.
fn blocks_in(table: &[u8], filter: &[u8], d: &[u8]) -> Result<(), Refusal>
    ensures { (es : List Entry) → read_from d.now 0 [] ≡ some es → result ≡ verdict_of (blocks_at table.now filter.now none (pairs_of es)) }
{
    let mut key = LastKey::new();
    let mut last = LastKey::new();
    let mut edge = Edge {
        index_key: LastKey::new(),
        last_key: LastKey::new(),
    };
    let mut at: usize = 0;
    while at < d.len() {
        let read = key.read(d, at).ok_or(Refusal::Malformed)?;
        let next = read.value_at + read.value_len;
        let handle = handle_of(&d[read.value_at..next]);
        let before = if at > 0 { Some(&edge) } else { None };
        data_at(table, filter, before, key.as_slice(), handle, &mut last)?;
        edge.index_key.copy_from(&key);
        edge.last_key.copy_from(&last);
        at = next;
    }
    Ok(())
}

// The filter block at a handle, and then those data blocks.
fn filtered(table: &[u8], d: &[u8], handle: BlockHandle) -> Result<(), Refusal>
    ensures { (es : List Entry) → read_from d.now 0 [] ≡ some es → result ≡ verdict_of (with_filter table.now (some handle) (pairs_of es)) }
{
    let filter = placed(table, handle)?;
    if !filter_block::filter_block::is_formed(filter) {
        return Err(Refusal::Filter);
    }
    blocks_in(table, filter, d)
}

// The filter that a metaindex names, and then those data blocks. Without a filter its bytes are none, and they deny nothing.
fn rest(table: &[u8], metaindex: &[u8], d: &[u8]) -> Result<(), Refusal>
    ensures { (ms es : List Entry) → readable metaindex.now ≡ some ms → read_from d.now 0 [] ≡ some es → result ≡ verdict_of (with_filter table.now (bloom_handle (pairs_of ms)) (pairs_of es)) }
{
    match bloom_handle(metaindex) {
        None => blocks_in(table, b"", d),
        Some(handle) => filtered(table, d, handle),
    }
}

// The full check.
pub fn check(table: &[u8]) -> Result<(), Refusal>
    ensures { result ≡ verdict_of (full_check table.now) }
{
    let footer = footer::decode(table)?;
    let metaindex = sorted(table, footer.metaindex, Kind::Metaindex)?;
    let index = sorted(table, footer.index, Kind::Index)?;
    rest(table, metaindex, entries(index))
}
