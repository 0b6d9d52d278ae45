// What is written of a table while it is built: entries, blocks that are closed, filters, and the end. Each function takes the runs
// that it changes and the numbers that it goes by: nothing is decided here.
ghost use Rattle.std.specs.Prelude.{◌≡◌, true, [], ◌∷◌, ◌+◌, ◌^◌, ◌≤◌, ◌<◌, ◌↔◌, IsTrue, length, take};
ghost use Rattle.codec.specs.Put.{put};
ghost use Rattle.codec.specs.Varint.{handle_bytes};
ghost use Rattle.blocks.specs.Block.{block_bytes};
ghost use Rattle.blocks.specs.Count.{count_size};
ghost use Rattle.block_builder.specs.Builder.{count_in};
ghost use Rattle.bloom.specs.Choice.{choice_of};
ghost use Rattle.filters.specs.FilterBlock.{filter_block_of};
ghost use Rattle.table.specs.Build.{meta_name, footer_bytes};
ghost use Rattle.table.specs.Counts.{meta_size};
ghost use Rattle.table_write.specs.Writes.{sealed_out, ClosedOut, ClosedIndex, MoreFilters, EnteredRuns, Framed, IndexPut, meta_block, EndFits, EndPut, EndWritten};

use block_builder::block_builder::BlockBuilder;
use bloom::filter::bloom_hash;
use checksum::trailer::put_trailer;
use codec::blockhandle::{BlockHandle, encode_to};
use codec::limits::least;
use codec::put::put_bytes;
use codec::varint::varint_len;
use filter_block::filter_block::make_filters;

// Writes the restarts and the trailer of a block, whose entries stand at a place of out.
fn seal_block(out: &mut [u8], at: usize, block: &BlockBuilder, restarts: &[u32])
    ensures { out.new ≡ sealed_out out.old at block.now restarts.now }
{
    let size = block.size_estimate();
    let _ = block.finish(out, at, restarts);
    let _ = put_trailer(out, at, size);
}

// Of a block that is closed: its restarts and its trailer.
pub fn close_out(closing: bool, block: &BlockBuilder, at: usize, out: &mut [u8], restarts: &[u32])
    ensures { ClosedOut closing block.now at out.old out.new restarts.now }
{
    if closing {
        seal_block(out, at, block, restarts);
    }
}

// The bytes of a handle go to the front of 20; how many they are.
fn put_handle(bytes: &mut [u8], handle: BlockHandle) -> usize
    requires { length bytes.old ≡ 20 }
    ensures { (result ≤ 20) × ((length bytes.new ≡ 20) × (take result bytes.new ≡ handle_bytes handle)) }
{
    encode_to(bytes, 0, handle).unwrap_or(0)
}

// Of a block that is closed, and stands at a place: its index entry, under a key.
pub fn close_index(
    closing: bool,
    block: &BlockBuilder,
    at: usize,
    indexed: &BlockBuilder,
    key: &[u8],
    index: &mut [u8],
    restarts: &mut [u32],
)
    ensures { ClosedIndex closing block.now at indexed.now key.now index.old index.new restarts.old restarts.new }
{
    if !closing {
        return;
    }
    let size = block.size_estimate();
    let mut bytes = [0u8; 20];
    let n = put_handle(&mut bytes, BlockHandle { offset: at, size });
    let mut indexed = *indexed;
    let _ = indexed.add(index, 0, restarts, key, &bytes[..n]);
}

// More filters, if so said: of the hashes that wait, until there are n.
pub fn more_filters(
    more: bool,
    choice: Option<u32>,
    waiting: &[u32],
    n: usize,
    filters: &mut [u8],
    bytes: usize,
    offsets: &mut [u32],
    made: usize,
)
    ensures { MoreFilters more (choice_of choice) n bytes made filters.old filters.new offsets.old offsets.new waiting.now }
{
    if more {
        let _ = make_filters(choice, waiting, n, filters, bytes, offsets, made);
    }
}

// Puts a hash behind those that wait.
fn push_hash(hashes: &mut [u32], n: usize, x: u32)
    ensures { hashes.new ≡ put hashes.old n (x ∷ []) }
{
    if n < hashes.len() {
        hashes[n] = x;
    }
}

// Writes an entry into a block that starts at a place of out, and its word's hash behind those that wait.
pub fn write_entry(
    pending: &BlockBuilder,
    at: usize,
    waiting: usize,
    key: &[u8],
    word: &[u8],
    value: &[u8],
    out: &mut [u8],
    restarts: &mut [u32],
    hashes: &mut [u32],
)
    ensures { EnteredRuns pending.now at waiting key.now word.now value.now out.old out.new restarts.old restarts.new hashes.old hashes.new }
{
    let mut pending = *pending;
    let _ = pending.add(out, at, restarts, key, value);
    push_hash(hashes, waiting, bloom_hash(word));
}

// Writes the filter block and its trailer at a place of out.
fn put_filter(out: &mut [u8], at: usize, filters: &[u8], offsets: &[u32], size: usize)
    ensures { size ≡ length (filter_block_of filters.now offsets.now) → Framed out.old at (filter_block_of filters.now offsets.now) out.new }
{
    let _ = filter_block::filter_block::finish(out, at, filters, offsets);
    let _ = put_trailer(out, at, size);
}

// Writes a block of one entry and its trailer at a place of out.
fn put_one(out: &mut [u8], at: usize, interval: usize, name: &[u8], value: &[u8])
    ensures { 1 ≤ interval → interval ≤ 1024 → length name.now ≤ 1032 → length value.now ≤ 32768 → Framed out.old at (block_bytes interval (record { key = name.now; value = value.now } ∷ [])) out.new }
{
    let mut restarts = [0u32; 1];
    let mut block = BlockBuilder::new(interval);
    let _ = block.add(out, at, &mut restarts, name, value);
    seal_block(out, at, &block, &restarts);
}

// The name of the metaindex entry.
fn meta_name(filter: Option<u32>) -> &'static [u8]
    ensures { result.now ≡ meta_name (choice_of filter) }
{
    match filter {
        None => b"filter._",
        Some(_) => b"filter.leveldb.BuiltinBloomFilter2",
    }
}

// The bytes of the metaindex block, which names a filter block by its handle.
pub fn meta_size(filter: Option<u32>, handle: BlockHandle) -> usize
    ensures { (result ≡ meta_size (choice_of filter) handle.offset handle.size) × (result < 200) }
{
    let name = meta_name(filter).len();
    let value = varint_len(handle.offset) + varint_len(handle.size);
    1 + varint_len(name) + varint_len(value) + name + value + 8
}

// Writes the metaindex and its trailer at a place of out.
fn put_meta(out: &mut [u8], at: usize, interval: usize, filter: Option<u32>, handle: BlockHandle)
    ensures { 1 ≤ interval → interval ≤ 1024 → Framed out.old at (meta_block interval (choice_of filter) handle) out.new }
{
    let mut bytes = [0u8; 20];
    let n = put_handle(&mut bytes, handle);
    put_one(out, at, interval, meta_name(filter), &bytes[..n]);
}

// Writes the index block and its trailer at a place of out.
fn put_index(out: &mut [u8], at: usize, indexed: &BlockBuilder, index: &[u8], restarts: &[u32])
    requires { (count_size (count_in indexed.now) ≤ 2 ^ 40) × (indexed.now.bytes ≤ length index.now) }
    ensures { IndexPut indexed.now index.now restarts.now at out.old out.new }
{
    let _ = put_bytes(out, at, &index[..indexed.bytes]);
    seal_block(out, at, indexed, restarts);
}

// The footer: both handles, zeros up to 40 bytes, and the magic.
fn put_footer(out: &mut [u8], at: usize, metaindex: BlockHandle, index: BlockHandle)
    ensures { out.new ≡ put out.old at (footer_bytes metaindex index) }
{
    let mut foot = [0u8; 48];
    let n = encode_to(&mut foot, 0, metaindex).unwrap_or(0);
    let _ = encode_to(&mut foot, n, index);
    let _ = put_bytes(&mut foot, 40, b"\x57\xfb\x80\x8b\x24\x75\x47\xdb");
    let _ = put_bytes(out, at, &foot);
}

// Writes filter block, metaindex, index and footer at a place of out.
fn put_end(
    out: &mut [u8],
    at: usize,
    interval: usize,
    filter: Option<u32>,
    filters: &[u8],
    offsets: &[u32],
    indexed: &BlockBuilder,
    index: &[u8],
    restarts: &[u32],
)
    requires { EndFits at (length filters.now) (length offsets.now) indexed.now (length filters.now) (length offsets.now) (length index.now) }
    ensures { EndPut interval (choice_of filter) at indexed.now filters.now offsets.now index.now restarts.now out.old out.new }
{
    let size = filters.len() + 4 * offsets.len() + 5;
    let filter_block = BlockHandle { offset: at, size };
    put_filter(out, at, filters, offsets, size);
    let metaindex = BlockHandle {
        offset: at + size + 5,
        size: meta_size(filter, filter_block),
    };
    put_meta(out, metaindex.offset, interval, filter, filter_block);
    let index_block = BlockHandle {
        offset: metaindex.offset + metaindex.size + 5,
        size: indexed.size_estimate(),
    };
    put_index(out, index_block.offset, indexed, index, restarts);
    let end = index_block.offset + index_block.size + 5;
    put_footer(out, end, metaindex, index_block);
}

// Whether the numbers of a table's end are far below 64 bits, and what it is written from stands within runs of such lengths.
fn end_fits(
    at: usize,
    bytes: usize,
    made: usize,
    indexed: &BlockBuilder,
    filters: usize,
    offsets: usize,
    index: usize,
) -> bool
    ensures { IsTrue result ↔ EndFits at bytes made indexed.now filters offsets index }
{
    let limit = 0x0100_0000_0000;
    at <= limit
        && bytes <= least(limit, filters)
        && made <= least(limit, offsets)
        && indexed.size_estimate() <= limit
        && indexed.bytes <= index
}

// Writes filter block, metaindex, index and footer at a place of out, the end of the data blocks: of the first bytes of filters, the
// first made offsets, and the index block that stands in index and restarts. Nothing, where these do not lie within their runs.
pub fn write_end(
    out: &mut [u8],
    at: usize,
    interval: usize,
    filter: Option<u32>,
    filters: &[u8],
    bytes: usize,
    offsets: &[u32],
    made: usize,
    indexed: &BlockBuilder,
    index: &[u8],
    restarts: &[u32],
)
    ensures { EndWritten interval (choice_of filter) at bytes made indexed.now filters.now offsets.now index.now restarts.now out.old out.new }
{
    if end_fits(
        at,
        bytes,
        made,
        indexed,
        filters.len(),
        offsets.len(),
        index.len(),
    ) {
        put_end(
            out,
            at,
            interval,
            filter,
            &filters[..bytes],
            &offsets[..made],
            indexed,
            index,
            restarts,
        );
    }
}
