// The Bloom hash, the probes, and one filter.
ghost use Rattle.std.specs.Prelude.{◌≡◌, ◌+◌, ◌*◌, ◌/◌, ◌%◌, ◌^◌, ◌<◌, ◌≤◌, min, length, replicate, ◌==◌};
ghost use Rattle.codec.specs.Put.{Wrote};
ghost use Rattle.bloom.specs.Choice.{choice_of};
ghost use Rattle.filters.specs.Filter.{hash_step, hash_from, hash, probes, places_of, bit, raise, raise_all, raise_keys, filter_size, filter, all_raised, filter_may};
ghost use Rattle.filters.specs.FilterBlock.{filter_for};
ghost use Rattle.filters.specs.FilterCount.{filter_bytes_of};

use codec::put::{NoRoom, end_of, put_bytes};

// What each number of the hash is multiplied by.
const FACTOR: u32 = 0xc6a4_a793;

// A number is added and multiplied in, and the high bits, from bit k on, are mixed into the low ones.
fn step(k: u32, h: u32, x: u32) -> u32
    requires { k < 32 }
    ensures { result ≡ hash_step k h x }
{
    let g = h.wrapping_add(x).wrapping_mul(FACTOR);
    g ^ (g >> k)
}

// The last bytes, fewer than four, go in as one number, if there are any.
fn last_step(h: u32, rest: &[u8]) -> u32
    requires { length rest.now < 4 }
    ensures { result ≡ hash_from h rest.now }
{
    let word = match *rest {
        [] => return h,
        [a] => [a, 0, 0, 0],
        [a, b] => [a, b, 0, 0],
        [a, b, c, ..] => [a, b, c, 0],
    };
    step(24, h, u32::from_le_bytes(word))
}

// The hash of some bytes.
pub fn bloom_hash(data: &[u8]) -> u32
    ensures { result ≡ hash «data».now }
{
    let mut h = 0xbc9f_1d34 ^ ((data.len() % 4294967296) as u32).wrapping_mul(FACTOR);
    let (words, rest) = data.as_chunks();
    for word in words {
        h = step(16, h, u32::from_le_bytes(*word));
    }
    last_step(h, rest)
}

// How many probes a filter of so many bits per key takes: bits times 0.69 in f32, cut to a whole number and held in 1 to 30.
pub fn probe_count(bits: u32) -> u32
    ensures { result ≡ probes bits }
{
    if 64 < bits {
        return 30;
    }
    let n = std::num::truncating_f32_to_u64(bits as f32 * 0.69);
    n.clamp(1, 30) as u32
}

// How many bytes the bits of n keys take, where that is below 2^63, as the length of every slice is; else 2^63.
fn filter_size(n: usize, bits: u32) -> usize
    ensures { result ≡ min (filter_size (n * bits)) (2 ^ 63) }
{
    let size = (n as u128 * bits as u128 + 7) / 8;
    size.clamp(8, 1 << 63) as usize
}

// How many bytes the filter of n hashes has, where its bits take fewer than 2^63; else 2^63 + 1.
pub fn filter_bytes(choice: Option<u32>, n: usize) -> usize
    ensures { result ≡ min (filter_bytes_of (choice_of choice) n) (2 ^ 63 + 1) }
{
    let Some(bits) = choice else {
        return 0;
    };
    if n == 0 { 0 } else { filter_size(n, bits) + 1 }
}

// How many places a probe has in so many bytes: 8 for each, of which a hash of 32 bits reaches 2^32.
fn span(len: usize) -> usize
    ensures { result ≡ min (8 * len) (2 ^ 32) }
{
    if len < 536870912 { 8 * len } else { 4294967296 }
}

// The step from a probe to the next.
fn probe_step(h: u32) -> u32
    ensures { result ≡ h % 2 ^ 17 * 2 ^ 15 + h / 2 ^ 17 }
{
    h.rotate_right(17)
}

// The probe after x, a step of d further, kept to the low 32 bits.
fn next_probe(x: u32, d: u32) -> u32
    ensures { result ≡ (x + d) % 2 ^ 32 }
{
    x.wrapping_add(d)
}

// Whether bit p is set.
fn is_raised(bits: &[u8], p: usize) -> bool
    requires { p < 8 * length bits.now }
    ensures { result ≡ (bit bits.now p == 1) }
{
    (bits[p / 8] >> (p % 8) as u32) % 2 == 1
}

// Sets bit p.
fn raise_bit(bits: &mut [u8], p: usize)
    requires { p < 8 * length bits.old }
    ensures { bits.new ≡ raise bits.old p }
{
    bits[p / 8] |= 1 << (p % 8) as u32;
}

// Sets the bits of the k probes of a hash.
fn raise_places(bits: &mut [u8], k: u32, h: u32)
    requires { 0 < length bits.old }
    ensures { bits.new ≡ raise_all bits.old (places_of k (8 * length bits.old) h) }
{
    let n = span(bits.len());
    let d = probe_step(h);
    let mut x = h;
    for _ in 0..k {
        raise_bit(bits, x as usize % n);
        x = next_probe(x, d);
    }
}

// The bits of a filter: all clear but those of the hashes.
fn write_bits(bits: &mut [u8], k: u32, hashes: &[u32])
    requires { 0 < length bits.old }
    ensures { bits.new ≡ raise_keys k (8 * length bits.old) (replicate (length bits.old) 0) hashes.now }
{
    bits.fill(0);
    for h in hashes {
        raise_places(bits, k, *h);
    }
}

// Writes the filter of some hashes at so many bits per key.
fn write_filter(bits: u32, hashes: &[u32], out: &mut [u8], at: usize) -> Result<usize, NoRoom>
    ensures { Wrote out.old at (filter bits hashes.now) result out.new }
{
    let size = filter_size(hashes.len(), bits);
    let end = end_of(out.len(), at, size + 1)?;
    let last = end - 1;
    let k = probe_count(bits);
    write_bits(&mut out[at..last], k, hashes);
    out[last] = k as u8;
    Ok(end)
}

// Writes the filter of some hashes at a place of out: nothing without filter, and of no hashes.
pub fn create_filter(
    choice: Option<u32>,
    hashes: &[u32],
    out: &mut [u8],
    at: usize,
) -> Result<usize, NoRoom>
    ensures { Wrote out.old at (filter_for (choice_of choice) hashes.now) result out.new }
{
    match choice {
        Some(bits) if !hashes.is_empty() => write_filter(bits, hashes, out, at),
        _ => put_bytes(out, at, b""),
    }
}

// Whether the bits of the k probes of a hash are set.
fn all_raised(bits: &[u8], k: u32, h: u32) -> bool
    requires { 0 < length bits.now }
    ensures { result ≡ all_raised bits.now (places_of k (8 * length bits.now) h) }
{
    let n = span(bits.len());
    let d = probe_step(h);
    let mut x = h;
    for _ in 0..k {
        if !is_raised(bits, x as usize % n) {
            return false;
        }
        x = next_probe(x, d);
    }
    true
}

// Whether a filter lets a hash through.
pub fn key_may_match(filter: &[u8], hash: u32) -> bool
    ensures { result ≡ filter_may filter.now hash }
{
    let Some((k, bits)) = filter.split_last() else {
        return true;
    };
    bits.is_empty() || *k > 30 || all_raised(bits, u32::from(*k), hash)
}
