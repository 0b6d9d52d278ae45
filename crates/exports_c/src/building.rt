// A table built: start, add, finish. The state goes in and comes back by value.
ghost use Rattle.builder.specs.State.{seven};
ghost use Rattle.exports.specs.Building.{filter_in, StartsOut, AddsOut, FinishesOut};

use exports::building::{SalevoniBuilt, SalevoniState};

// Starts a table in seven runs; nothing is written.
#[unsafe(no_mangle)]
pub extern "C" fn salevoni_start(
    block_size: usize,
    interval: usize,
    filter: u32,
    bits: u32,
    out: &mut [u8],
    index: &mut [u8],
    filters: &mut [u8],
    restarts: &mut [u32],
    index_restarts: &mut [u32],
    offsets: &mut [u32],
    hashes: &mut [u32],
) -> SalevoniBuilt
    ensures { StartsOut (record { block_size = block_size; interval = interval; filter = filter_in filter bits }) (seven out.old index.old filters.old restarts.old index_restarts.old offsets.old hashes.old) (seven out.new index.new filters.new restarts.new index_restarts.new offsets.new hashes.new) result }
{
    exports::building::salevoni_start(
        block_size,
        interval,
        filter,
        bits,
        out,
        index,
        filters,
        restarts,
        index_restarts,
        offsets,
        hashes,
    )
}

// Adds an entry: a word, its edition and kind, and a value.
#[unsafe(no_mangle)]
pub extern "C" fn salevoni_add(
    state: SalevoniState,
    out: &mut [u8],
    index: &mut [u8],
    filters: &mut [u8],
    restarts: &mut [u32],
    index_restarts: &mut [u32],
    offsets: &mut [u32],
    hashes: &mut [u32],
    word: &[u8],
    edition: u64,
    kind: u8,
    value: &[u8],
) -> SalevoniBuilt
    ensures { AddsOut state (seven out.old index.old filters.old restarts.old index_restarts.old offsets.old hashes.old) (seven out.new index.new filters.new restarts.new index_restarts.new offsets.new hashes.new) (record { word = word.entry.now; edition = edition; kind = kind; value = value.now }) result }
{
    exports::building::salevoni_add(
        state,
        out,
        index,
        filters,
        restarts,
        index_restarts,
        offsets,
        hashes,
        word,
        edition,
        kind,
        value,
    )
}

// Writes all that is left of the table, which is then the first size bytes of out.
#[unsafe(no_mangle)]
pub extern "C" fn salevoni_finish(
    state: SalevoniState,
    out: &mut [u8],
    index: &mut [u8],
    filters: &mut [u8],
    restarts: &mut [u32],
    index_restarts: &mut [u32],
    offsets: &mut [u32],
    hashes: &mut [u32],
) -> SalevoniBuilt
    ensures { FinishesOut state (seven out.old index.old filters.old restarts.old index_restarts.old offsets.old hashes.old) (seven out.new index.new filters.new restarts.new index_restarts.new offsets.new hashes.new) result }
{
    exports::building::salevoni_finish(
        state,
        out,
        index,
        filters,
        restarts,
        index_restarts,
        offsets,
        hashes,
    )
}
