// A table being built: data blocks and index, filters and hashes lie in seven lent runs. The builder itself is a value: the
// options, the runs' lengths and counts. Everything is decided from these before anything is written.
ghost use Rattle.std.specs.Prelude.{◌≡◌, true, ◌&&◌, ◌+◌, ◌*◌, ◌^◌, ◌≤◌, ◌<◌, leb, length, take};
ghost use Rattle.bloom.specs.Choice.{choice_of};
ghost use Rattle.table_write.specs.Writes.{EnteredRuns};
ghost use Rattle.filters.specs.FilterCount.{filter_bytes_of, count_made, count_last};
ghost use Rattle.keys.specs.Order.{below, separator, internal};
ghost use Rattle.table.specs.Options.{options_fit, filtering_fits, empty_size, addition_fits};
ghost use Rattle.table.specs.Runs.{room_of};
ghost use Rattle.table.specs.Counts.{end_size, finished_size};
ghost use Rattle.builder.specs.State.{options_of, counts_in, seven, lent, lengths_of, runs_fit, sizes_fit, sane, begun};
ghost use Rattle.builder.specs.Answers.{StartedIs, AddedIs, FinishedIs};
ghost use Rattle.builder.specs.Steps.{small, Small, filter_count_in, filters_in, close_in, closed_state, Roomy, entered_state, last_state, sizes_in, Whole, cut_of, mid_of, above_last, last_of, fits_of, early_of, unless, Ready, DecidedIs, open_after, EndingIs};

use block_builder::block_builder::BlockBuilder;
use bloom::filter::filter_bytes;
use codec::blockhandle::BlockHandle;
use codec::limits::{least, within};
use codec::varint::varint_len;
use keys::cmp::find_internal_sep;
use keys::key_types::{build_internal_key, key_below};
use table_block::footer::TABLE_LIMIT;
use table_block::refusal::Refusal;
use table_write::table_write::{
    close_index, close_out, meta_size, more_filters, write_end, write_entry,
};

// Restart interval, block size and filter choice: none, or a Bloom filter of so many bits per key.
#[derive(Clone, Copy)]
pub struct Options {
    pub block_size: usize,
    pub interval: usize,
    pub filter: Option<u32>,
}

// The lengths of the seven runs. The library for C hands them out as they are.
#[repr(C)]
#[derive(Clone, Copy, Debug, PartialEq, Eq)]
pub struct Lengths {
    pub out: usize,
    pub index: usize,
    pub filters: usize,
    pub restarts: usize,
    pub index_restarts: usize,
    pub offsets: usize,
    pub hashes: usize,
}

// The seven lent runs: the output, and what is kept there of a table until it is finished.
#[derive(Drop)]
pub struct Runs<'a> {
    pub out: &'a mut [u8],
    pub index: &'a mut [u8],
    pub filters: &'a mut [u8],
    pub restarts: &'a mut [u32],
    pub index_restarts: &'a mut [u32],
    pub offsets: &'a mut [u32],
    pub hashes: &'a mut [u32],
}

impl Runs<'_> {
    // How long they are.
    pub fn lengths(&self) -> Lengths
        ensures { result ≡ lengths_of (lent self.now) }
    {
        Lengths {
            out: self.out.len(),
            index: self.index.len(),
            filters: self.filters.len(),
            restarts: self.restarts.len(),
            index_restarts: self.index_restarts.len(),
            offsets: self.offsets.len(),
            hashes: self.hashes.len(),
        }
    }
}

// The options and the runs' lengths given at start; the bytes written; the open data block and the index block; the bytes of
// the filters made and their number; the hashes that wait; whether the table is finished.
#[derive(Clone, Copy)]
pub struct Builder {
    pub options: Options,
    pub lengths: Lengths,
    pub written: usize,
    pub pending: BlockBuilder,
    pub indexed: BlockBuilder,
    pub filtered: usize,
    pub made: usize,
    pub waiting: usize,
    pub finished: bool,
}

// Whether a sum is at most n.
fn sum_fits(a: usize, b: usize, n: usize) -> bool
    ensures { result ≡ leb (a + b) n }
{
    if n < a {
        return false;
    }
    b <= n - a
}

// The most bytes that a table has in an output of n bytes.
fn room(n: usize) -> usize
    ensures { result ≡ room_of n }
{
    least(TABLE_LIMIT, n)
}

// Whether a filter choice is within the limits.
#[tactic(auto, unfolding(table::specs::Options::filtering_fits, bloom::specs::Choice::choice_of))]
fn filter_fits(f: Option<u32>) -> bool
    ensures { result ≡ filtering_fits (choice_of f) }
{
    match f {
        None => true,
        Some(bits) => within(1, 64, bits as usize),
    }
}

// The empty table's bytes.
#[tactic(auto, unfolding(table::specs::Options::empty_size, bloom::specs::Choice::choice_of))]
fn empty_size(f: Option<u32>) -> usize
    ensures { result ≡ empty_size (choice_of f) }
{
    match f {
        None => 97,
        Some(_) => 123,
    }
}

// Whether options are within the limits.
#[tactic(auto, unfolding(table::specs::Options::options_fit, crate::specs::State::options_of))]
fn options_fit(o: Options) -> bool
    ensures { result ≡ options_fit (options_of o) }
{
    within(1, 1024, o.interval) && within(8, 65536, o.block_size) && filter_fits(o.filter)
}

// Whether runs of such lengths are long enough to start with.
#[tactic(auto, unfolding(crate::specs::State::runs_fit))]
fn runs_fit(f: Option<u32>, l: Lengths) -> bool
    ensures { result ≡ runs_fit (choice_of f) l }
{
    let n = room(l.out);
    let bytes = n <= l.index && n <= l.filters;
    let restarts = n / 4 <= l.restarts && n / 4 <= l.index_restarts;
    let rest = n / 4 <= l.offsets && n / 4 <= l.hashes;
    empty_size(f) <= l.out && bytes && restarts && rest
}

// The state of nothing added yet.
fn begun(options: Options, lengths: Lengths) -> Builder
    ensures { result ≡ begun options lengths }
{
    let pending = BlockBuilder::new(options.interval);
    Builder {
        options,
        lengths,
        written: 0,
        pending,
        indexed: pending,
        filtered: 0,
        made: 0,
        waiting: 0,
        finished: false,
    }
}

// Starts a table of such options in seven runs; nothing is written.
pub fn start(options: Options, runs: Runs<'_>) -> Result<Builder, Refusal>
    ensures { StartedIs options (lent runs.entry) (seven runs.exit.0.now runs.exit.1.0.now runs.exit.1.1.0.now runs.exit.1.1.1.0.now runs.exit.1.1.1.1.0.now runs.exit.1.1.1.1.1.0.now runs.exit.1.1.1.1.1.1.0.now) result }
{
    if !options_fit(options) {
        return Err(Refusal::Options);
    }
    let lengths = runs.lengths();
    if !runs_fit(options.filter, lengths) {
        return Err(Refusal::Short);
    }
    Ok(begun(options, lengths))
}

// Whether each size is within its run, and both last keys are within their arrays.
#[tactic(auto, unfolding(crate::specs::State::sizes_fit))]
fn sizes_fit(s: &Builder, l: Lengths) -> bool
    ensures { result ≡ sizes_fit s.now l }
{
    sum_fits(s.written, s.pending.bytes, l.out)
        && s.indexed.bytes <= l.index
        && s.filtered <= l.filters
        && s.pending.restarts <= l.restarts
        && s.indexed.restarts <= l.index_restarts
        && s.made <= l.offsets
        && s.waiting <= l.hashes
        && s.pending.len <= 1032
        && s.indexed.len <= 1032
}

// Whether a state is one of runs of such lengths.
#[tactic(auto, unfolding(crate::specs::State::sane, crate::specs::State::same_lengths))]
fn is_sane(s: &Builder, l: Lengths) -> bool
    ensures { result ≡ sane s.now l }
{
    s.lengths == l && options_fit(s.options) && sizes_fit(s, l)
}

// Whether a state's counts are those that a table within the limit can have.
#[tactic(auto, unfolding(crate::specs::Steps::small))]
fn is_small(s: &Builder) -> bool
    ensures { result ≡ small s.now }
{
    s.pending.interval == s.options.interval
        && s.indexed.interval == s.options.interval
        && s.pending.since <= s.options.interval
        && s.indexed.since <= s.options.interval
        && s.written <= TABLE_LIMIT
        && s.pending.bytes <= TABLE_LIMIT
        && s.pending.restarts <= TABLE_LIMIT
        && s.indexed.bytes <= TABLE_LIMIT
        && s.indexed.restarts <= TABLE_LIMIT
        && s.filtered <= TABLE_LIMIT
        && s.made <= TABLE_LIMIT
        && s.waiting <= TABLE_LIMIT
}

// A state whose counts are small, and whose last key is within its array.
#[derive(Clone, Copy)]
struct SmallBuilder<'a> {
    state: &'a Builder,
    ghost small: { Small state.now },
    ghost short: { state.now.pending.len ≤ 1032 },
}

// The filters' bytes, how many there are, and how many hashes wait.
#[derive(Clone, Copy)]
struct FilterSizes {
    bytes: usize,
    made: usize,
    waiting: usize,
}

// Those of a state.
fn filters_of(s: &Builder) -> FilterSizes
    ensures { result ≡ filters_in s.now }
{
    FilterSizes {
        bytes: s.filtered,
        made: s.made,
        waiting: s.waiting,
    }
}

// Filters made until there are n.
fn made_until(choice: Option<u32>, n: usize, f: FilterSizes) -> FilterSizes
    requires { f.bytes + filter_bytes_of (choice_of choice) f.waiting < 2 ^ 63 }
    ensures { filter_count_in result ≡ count_made (choice_of choice) n (filter_count_in f) }
{
    if n <= f.made {
        return f;
    }
    let more = filter_bytes(choice, f.waiting);
    FilterSizes {
        bytes: f.bytes + more,
        made: n,
        waiting: 0,
    }
}

// One filter more if hashes still wait.
fn last_made(choice: Option<u32>, f: FilterSizes) -> FilterSizes
    requires { (f.bytes + filter_bytes_of (choice_of choice) f.waiting < 2 ^ 63) × (f.made < 2 ^ 63) }
    ensures { filter_count_in result ≡ count_last (choice_of choice) (filter_count_in f) }
{
    if f.waiting == 0 {
        return f;
    }
    made_until(choice, f.made + 1, f)
}

// What the open block is when it is closed, in numbers: where it ends, how many bytes its handle has, and the filters then.
#[derive(Clone, Copy)]
struct Close {
    end: usize,
    handle: usize,
    filters: FilterSizes,
}

// One entry more in the open block.
fn enter(next: &mut Builder, key: &[u8], value_len: usize)
    requires { Roomy next.old (length key.now) value_len }
    ensures { next.new ≡ entered_state next.old key.now value_len }
{
    let _ = next.pending.count(key, value_len);
    next.waiting += 1;
}

// The first n of some values, or all of them.
fn front<T>(xs: &[T], n: usize) -> &[T]
    ensures { result.now ≡ take n xs.now }
{
    &xs[..least(n, xs.len())]
}

// The bytes of data blocks, and then of filter block, metaindex, an index block of so many bytes, and footer.
fn end_size(filter: Option<u32>, written: usize, f: FilterSizes, index: usize) -> usize
    requires { (written ≤ 2 ^ 40) × (f.bytes ≤ 2 ^ 40) × (f.made ≤ 2 ^ 40) × (index ≤ 2 ^ 40) }
    ensures { result ≡ end_size (choice_of filter) written (f.bytes + 4 * f.made + 5) index }
{
    let block = f.bytes + 4 * f.made + 5;
    let meta = meta_size(
        filter,
        BlockHandle {
            offset: written,
            size: block,
        },
    );
    written + (block + 5) + (meta + 5) + (index + 5) + 48
}

// What the size of the finished table is reckoned from: the bytes of the data blocks, the index block's size, and the filters.
#[derive(Clone, Copy)]
struct Sizes {
    written: usize,
    index: usize,
    filters: FilterSizes,
}

// Whether the parts of an addition are within the limits.
#[tactic(auto, unfolding(table::specs::Options::addition_fits))]
fn addition_fits(word: &[u8], edition: u64, kind: u8, value: &[u8]) -> bool
    ensures { result ≡ addition_fits (record { word = word.entry.now; edition = edition; kind = kind; value = value.now }) }
{
    within(1, 1024, word.len())
        && value.len() <= 32768
        && edition < 0x0100_0000_0000_0000
        && kind <= 1
}

// The refusals 6, 2 and 3.
fn early(s: &Builder, l: Lengths, fits: bool) -> Result<(), Refusal>
    ensures { result ≡ unless (early_of s.now l fits) }
{
    if s.finished {
        return Err(Refusal::Finished);
    }
    if !is_sane(s, l) {
        return Err(Refusal::Short);
    }
    if !fits {
        return Err(Refusal::Limits);
    }
    Ok(())
}

// Whether a key is above the last one of the open block.
fn is_above(s: &Builder, key: &[u8]) -> bool
    ensures { result ≡ above_last s.now key.now }
{
    s.pending.restarts == 0 || key_below(front(&s.pending.last, s.pending.len), key)
}

// The separator of two keys goes to the front of sep; how many bytes it has.
fn put_separator(sep: &mut [u8], last: &[u8], key: &[u8]) -> usize
    requires { (length sep.old ≡ 1032) × (length last.now ≤ 1032) }
    ensures { (result ≤ 1032) × ((length sep.new ≡ 1032) × (take result sep.new ≡ separator last.now key.now)) }
{
    find_internal_sep(sep, 0, last, key).unwrap_or(0)
}

impl SmallBuilder<'_> {
    // The open block's last key.
    #[tactic(auto, unfolding(crate::specs::Steps::last_of))]
    fn last(&self) -> &[u8]
        ensures said { result.now ≡ last_of self.now.state.now }
        ensures short { length result.now ≤ 1032 }
    {
        front(&self.state.pending.last, self.state.pending.len)
    }

    // What the open block is when it is closed.
    fn close(&self) -> Close
        ensures { result ≡ close_in self.now.state.now }
    {
        let s = self.state;
        let size = s.pending.size_estimate();
        let end = s.written + size + 5;
        Close {
            end,
            handle: varint_len(s.written) + varint_len(size),
            filters: made_until(s.options.filter, end / 2048, filters_of(s)),
        }
    }

    // Closes the open block of next, which is this state, and indexes it under a key.
    fn close_under(&self, key: &[u8], next: &mut Builder)
        requires { (length key.now ≤ 1032) × (next.old ≡ self.now.state.now) }
        ensures { next.new ≡ closed_state self.now.state.now key.now }
    {
        let c = self.close();
        next.written = c.end;
        next.pending = BlockBuilder::new(self.state.options.interval);
        let _ = next.indexed.count(key, c.handle);
        next.filtered = c.filters.bytes;
        next.made = c.filters.made;
        next.waiting = c.filters.waiting;
    }

    // The same in numbers, without a state to close.
    fn closed_sizes(&self, key: &[u8]) -> Sizes
        requires { length key.now ≤ 1032 }
        ensures { result ≡ sizes_in (closed_state self.now.state.now key.now) }
    {
        let c = self.close();
        Sizes {
            written: c.end,
            index: self.state.indexed.counts().size_with(key, c.handle),
            filters: c.filters,
        }
    }

    // At the end: closes a pending block of last, which is this state, and indexes it under its last key.
    fn close_last(&self, last: &mut Builder)
        requires { last.old ≡ self.now.state.now }
        ensures { last.new ≡ last_state self.now.state.now }
    {
        if self.state.pending.restarts == 0 {
            return;
        }
        self.close_under(self.last(), last);
    }

    // The same in numbers.
    fn last_sizes(&self) -> Sizes
        ensures { result ≡ sizes_in (last_state self.now.state.now) }
    {
        if self.state.pending.restarts == 0 {
            return Sizes {
                written: self.state.written,
                index: self.state.indexed.size_estimate(),
                filters: filters_of(self.state),
            };
        }
        self.closed_sizes(self.last())
    }

    // The bytes of the table finished now.
    fn finished_size(&self) -> usize
        ensures { Whole self.now.state.now → result ≡ finished_size (options_of self.now.state.now.options) (counts_in self.now.state.now) }
    {
        let filter = self.state.options.filter;
        let d = self.last_sizes();
        let f = last_made(filter, d.filters);
        end_size(filter, d.written, f, d.index)
    }

    // Whether the open block is over the block size.
    fn is_cut(&self) -> bool
        ensures { result ≡ cut_of self.now.state.now }
    {
        self.state.options.block_size < self.state.pending.size_estimate()
    }

    // Makes the cut before a key, if there is one, in next, which is this state.
    fn cut_before(&self, cut: bool, key: &[u8], next: &mut Builder)
        requires { (cut ≡ cut_of self.now.state.now) × (next.old ≡ self.now.state.now) }
        ensures { next.new ≡ mid_of self.now.state.now key.now }
    {
        if !cut {
            return;
        }
        let mut sep = [0u8; 1032];
        let n = put_separator(&mut sep, self.last(), key);
        self.close_under(&sep[..n], next);
    }
}

// Whether a state is one that a table within the room can have.
fn has_room(s: &Builder, l: Lengths) -> bool
    ensures { Whole s.now → result ≡ fits_of s.now l }
{
    if !is_sane(s, l) {
        return false;
    }
    if !is_small(s) {
        return false;
    }
    SmallBuilder { state: s }.finished_size() <= room(l.out)
}

// What is decided of an addition beside the state with the entry: whether there is a cut, and how many hashes wait after it.
#[derive(Clone, Copy)]
struct Plan {
    cut: bool,
    waiting: usize,
}

// Everything is decided here, and nothing written in the runs: next, which is the state, becomes that with the entry.
fn decide(
    s: &Builder,
    l: Lengths,
    key: &[u8],
    value_len: usize,
    next: &mut Builder,
) -> Result<Plan, Refusal>
    requires { (Ready s.now l (length key.now) value_len) × (next.old ≡ s.now) }
    ensures { DecidedIs s.now l key.now value_len result next.new }
{
    if !is_small(s) {
        return Err(Refusal::Full);
    }
    if !is_above(s, key) {
        return Err(Refusal::Order);
    }
    let before = SmallBuilder { state: s };
    let cut = before.is_cut();
    before.cut_before(cut, key, next);
    let waiting = next.waiting;
    enter(next, key, value_len);
    if !has_room(next, l) {
        return Err(Refusal::Full);
    }
    Ok(Plan { cut, waiting })
}

// Writes an entry into the block that is open after a cut, if there is one, and its word's hash behind those that wait.
fn write_after(
    cut: bool,
    s: &Builder,
    at: usize,
    waiting: usize,
    key: &[u8],
    word: &[u8],
    value: &[u8],
    out: &mut [u8],
    restarts: &mut [u32],
    hashes: &mut [u32],
)
    ensures { EnteredRuns (open_after cut s.now) at waiting key.now word.now value.now out.old out.new restarts.old restarts.new hashes.old hashes.new }
{
    if !cut {
        write_entry(
            &s.pending, at, waiting, key, word, value, out, restarts, hashes,
        );
        return;
    }
    let pending = BlockBuilder::new(s.options.interval);
    write_entry(
        &pending, at, waiting, key, word, value, out, restarts, hashes,
    );
}

// The internal key of an addition goes to the front of key; how many bytes it has.
fn put_key(key: &mut [u8], word: &[u8], edition: u64, kind: u8) -> usize
    requires { (length key.old ≡ 1032) × (length word.now ≤ 1024) }
    ensures { (result ≤ 1032) × ((length key.new ≡ 1032) × (take result key.new ≡ internal word.now edition kind)) }
{
    build_internal_key(key, 0, word, edition, kind).unwrap_or(0)
}

// What is decided of a finish beside the state with the last block closed: the table's size, and the filters with the last one
// made.
#[derive(Clone, Copy)]
struct Ending {
    size: usize,
    sizes: FilterSizes,
}

// Whether a table of such a size, and what its end is written from, stand in runs of such lengths.
fn end_fits(l: Lengths, size: usize, f: FilterSizes, index: usize) -> bool
    ensures { result ≡ (leb size l.out && (leb f.bytes l.filters && (leb f.made l.offsets && leb index l.index))) }
{
    size <= l.out && f.bytes <= l.filters && f.made <= l.offsets && index <= l.index
}

// Everything is decided here, and nothing written in the runs: last, which is the state, becomes that with the last block closed.
fn decide_end(s: &Builder, l: Lengths, last: &mut Builder) -> Result<Ending, Refusal>
    requires { (sane s.now l ≡ true) × (last.old ≡ s.now) }
    ensures { EndingIs s.now l result last.new }
{
    if !is_small(s) {
        return Err(Refusal::Full);
    }
    SmallBuilder { state: s }.close_last(last);
    let filter = s.options.filter;
    let f = last_made(filter, filters_of(last));
    let size = end_size(filter, last.written, f, last.indexed.size_estimate());
    if !end_fits(l, size, f, last.indexed.bytes) {
        return Err(Refusal::Full);
    }
    Ok(Ending { size, sizes: f })
}

impl Builder {
    // Adds an entry: a user key, a sequence and a kind, and a value.
    pub fn add(
        &mut self,
        runs: Runs<'_>,
        word: &[u8],
        edition: u64,
        kind: u8,
        value: &[u8],
    ) -> Result<(), Refusal>
        ensures { AddedIs self.old (lent runs.entry) (seven runs.exit.0.now runs.exit.1.0.now runs.exit.1.1.0.now runs.exit.1.1.1.0.now runs.exit.1.1.1.1.0.now runs.exit.1.1.1.1.1.0.now runs.exit.1.1.1.1.1.1.0.now) (record { word = word.entry.now; edition = edition; kind = kind; value = value.now }) (record { answer = result; state = self.new }) }
    {
        let lengths = runs.lengths();
        early(self, lengths, addition_fits(word, edition, kind, value))?;
        let mut key = [0u8; 1032];
        let n = put_key(&mut key, word, edition, kind);
        let mut next = *self;
        let p = decide(self, lengths, &key[..n], value.len(), &mut next)?;
        let Runs {
            out,
            index,
            filters,
            restarts,
            index_restarts,
            offsets,
            hashes,
        } = runs;
        close_out(p.cut, &self.pending, self.written, out, restarts);
        close_index(
            p.cut,
            &self.pending,
            self.written,
            &self.indexed,
            front(&next.indexed.last, next.indexed.len),
            index,
            index_restarts,
        );
        more_filters(
            p.cut,
            self.options.filter,
            front(hashes, self.waiting),
            next.written / 2048,
            filters,
            self.filtered,
            offsets,
            self.made,
        );
        write_after(
            p.cut,
            self,
            next.written,
            p.waiting,
            &key[..n],
            word,
            value,
            out,
            restarts,
            hashes,
        );
        *self = next;
        Ok(())
    }

    // Writes all that is left of the table: its last block, filter block, metaindex, index and footer. The table's size.
    pub fn finish(&mut self, runs: Runs<'_>) -> Result<usize, Refusal>
        ensures { FinishedIs self.old (lent runs.entry) (seven runs.exit.0.now runs.exit.1.0.now runs.exit.1.1.0.now runs.exit.1.1.1.0.now runs.exit.1.1.1.1.0.now runs.exit.1.1.1.1.1.0.now runs.exit.1.1.1.1.1.1.0.now) (record { answer = result; state = self.new }) }
    {
        let lengths = runs.lengths();
        early(self, lengths, true)?;
        let mut last = *self;
        let p = decide_end(self, lengths, &mut last)?;
        let Runs {
            out,
            index,
            filters,
            restarts,
            index_restarts,
            offsets,
            hashes,
        } = runs;
        let closing = self.pending.restarts != 0;
        let filter = self.options.filter;
        close_out(closing, &self.pending, self.written, out, restarts);
        close_index(
            closing,
            &self.pending,
            self.written,
            &self.indexed,
            front(&last.indexed.last, last.indexed.len),
            index,
            index_restarts,
        );
        more_filters(
            closing,
            filter,
            front(hashes, self.waiting),
            last.written / 2048,
            filters,
            self.filtered,
            offsets,
            self.made,
        );
        more_filters(
            last.waiting != 0,
            filter,
            front(hashes, last.waiting),
            p.sizes.made,
            filters,
            last.filtered,
            offsets,
            last.made,
        );
        write_end(
            out,
            last.written,
            self.options.interval,
            filter,
            filters,
            p.sizes.bytes,
            offsets,
            p.sizes.made,
            &last.indexed,
            index,
            index_restarts,
        );
        self.finished = true;
        Ok(p.size)
    }
}
