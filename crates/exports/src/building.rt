// A table built: start, add, finish. The state goes in and comes back by value.
ghost use Rattle.std.specs.Prelude.{◌≡◌};
ghost use Rattle.builder.specs.State.{seven};
ghost use Rattle.builder.specs.State.{begun};
ghost use Rattle.exports.specs.Building.{filter_in, builder_in, state_out, nothing, built, refused, StartsOut, AddsOut, FinishesOut};

use block_builder::block_builder::BlockBuilder;
use builder::table_builder::{Builder, Lengths, Options, Runs, start};
use table_block::refusal::Refusal;

// A table being built, the builder's state in numbers: filter is 0 for none, else Bloom with so many bits per key; finished is
// 0 until finish.
#[repr(C)]
#[derive(Clone, Copy)]
pub struct SalevoniState {
    pub block_size: usize,
    pub interval: usize,
    pub filter: u32,
    pub bits: u32,
    pub lengths: Lengths,
    pub written: usize,
    pub pending: BlockBuilder,
    pub indexed: BlockBuilder,
    pub filtered: usize,
    pub made: usize,
    pub waiting: usize,
    pub finished: u32,
}

// What a call of the builder answers, 0 or the refusal's number; the table's size after finish, else 0; and the state to go on
// with.
#[repr(C)]
#[derive(Clone, Copy)]
pub struct SalevoniBuilt {
    pub answer: u32,
    pub size: usize,
    pub state: SalevoniState,
}

// A filter choice by its numbers.
fn filter_in(filter: u32, bits: u32) -> Option<u32>
    ensures { result ≡ filter_in filter bits }
{
    if filter == 0 { None } else { Some(bits) }
}

impl From<SalevoniState> for Builder {
    ghost from_gives = { λ s b. b ≡ builder_in s };

    fn from(s: SalevoniState) -> Builder {
        Builder {
            options: Options {
                block_size: s.block_size,
                interval: s.interval,
                filter: filter_in(s.filter, s.bits),
            },
            lengths: s.lengths,
            written: s.written,
            pending: s.pending,
            indexed: s.indexed,
            filtered: s.filtered,
            made: s.made,
            waiting: s.waiting,
            finished: s.finished != 0,
        }
    }
}

impl From<Builder> for SalevoniState {
    ghost from_gives = { λ b s. s ≡ state_out b };

    fn from(b: Builder) -> SalevoniState {
        SalevoniState {
            block_size: b.options.block_size,
            interval: b.options.interval,
            filter: u32::from(b.options.filter.is_some()),
            bits: b.options.filter.unwrap_or(0),
            lengths: b.lengths,
            written: b.written,
            pending: b.pending,
            indexed: b.indexed,
            filtered: b.filtered,
            made: b.made,
            waiting: b.waiting,
            finished: u32::from(b.finished),
        }
    }
}

// The state that comes with a refusal of start: of nothing.
fn nothing() -> SalevoniState
    ensures { result ≡ nothing }
{
    SalevoniState {
        block_size: 0,
        interval: 0,
        filter: 0,
        bits: 0,
        lengths: Lengths {
            out: 0,
            index: 0,
            filters: 0,
            restarts: 0,
            index_restarts: 0,
            offsets: 0,
            hashes: 0,
        },
        written: 0,
        pending: BlockBuilder::new(0),
        indexed: BlockBuilder::new(0),
        filtered: 0,
        made: 0,
        waiting: 0,
        finished: 0,
    }
}

// A call that is done: the table's size, and the state to go on with.
fn built(size: usize, b: Builder) -> SalevoniBuilt
    ensures { result ≡ built size b }
{
    SalevoniBuilt {
        answer: 0,
        size,
        state: SalevoniState::from(b),
    }
}

// A call that is refused, and the state that comes with it.
fn refused(state: SalevoniState, why: Refusal) -> SalevoniBuilt
    ensures { result ≡ refused state why }
{
    SalevoniBuilt {
        answer: why.number(),
        size: 0,
        state,
    }
}

// Starts a table in seven runs; nothing is written.
pub fn salevoni_start(
    block_size: usize,
    interval: usize,
    filter: u32,
    bits: u32,
    out: &mut [u8],
    index: &mut [u8],
    filters: &mut [u8],
    restarts: &mut [u32],
    index_restarts: &mut [u32],
    offsets: &mut [u32],
    hashes: &mut [u32],
) -> SalevoniBuilt
    ensures { StartsOut (record { block_size = block_size; interval = interval; filter = filter_in filter bits }) (seven out.old index.old filters.old restarts.old index_restarts.old offsets.old hashes.old) (seven out.new index.new filters.new restarts.new index_restarts.new offsets.new hashes.new) result }
{
    let options = Options {
        block_size,
        interval,
        filter: filter_in(filter, bits),
    };
    let runs = Runs {
        out,
        index,
        filters,
        restarts,
        index_restarts,
        offsets,
        hashes,
    };
    match start(options, runs) {
        Ok(b) => built(0, b),
        Err(why) => refused(nothing(), why),
    }
}

// Adds an entry: a word, its edition and kind, and a value.
pub fn salevoni_add(
    state: SalevoniState,
    out: &mut [u8],
    index: &mut [u8],
    filters: &mut [u8],
    restarts: &mut [u32],
    index_restarts: &mut [u32],
    offsets: &mut [u32],
    hashes: &mut [u32],
    word: &[u8],
    edition: u64,
    kind: u8,
    value: &[u8],
) -> SalevoniBuilt
    ensures { AddsOut state (seven out.old index.old filters.old restarts.old index_restarts.old offsets.old hashes.old) (seven out.new index.new filters.new restarts.new index_restarts.new offsets.new hashes.new) (record { word = word.entry.now; edition = edition; kind = kind; value = value.now }) result }
{
    let mut b = Builder::from(state);
    let runs = Runs {
        out,
        index,
        filters,
        restarts,
        index_restarts,
        offsets,
        hashes,
    };
    match b.add(runs, word, edition, kind, value) {
        Ok(()) => built(0, b),
        Err(why) => refused(state, why),
    }
}

// Writes all that is left of the table, which is then the first size bytes of out.
pub fn salevoni_finish(
    state: SalevoniState,
    out: &mut [u8],
    index: &mut [u8],
    filters: &mut [u8],
    restarts: &mut [u32],
    index_restarts: &mut [u32],
    offsets: &mut [u32],
    hashes: &mut [u32],
) -> SalevoniBuilt
    ensures { FinishesOut state (seven out.old index.old filters.old restarts.old index_restarts.old offsets.old hashes.old) (seven out.new index.new filters.new restarts.new index_restarts.new offsets.new hashes.new) result }
{
    let mut b = Builder::from(state);
    let runs = Runs {
        out,
        index,
        filters,
        restarts,
        index_restarts,
        offsets,
        hashes,
    };
    match b.finish(runs) {
        Ok(size) => built(size, b),
        Err(why) => refused(state, why),
    }
}
