// The order by bytes, separators and successors.
ghost use Rattle.std.specs.Prelude.{◌≡◌, ◌∷◌, ◌++◌, ◌+◌, ◌*◌, ◌≤◌, ◌<◌, min, length, take};
ghost use Rattle.codec.specs.Bytes.{common, part, same_bytes};
ghost use Rattle.codec.specs.Put.{Wrote};
ghost use Rattle.keys.specs.Answers.{order_answer, says_less};
ghost use Rattle.keys.specs.Order.{by_bytes, bytes_below, shortest_sep, user_sep, last_tag, separator, short_succ};
ghost use Rattle.keys.specs.Plan.{big_of, Raisable, raised, RaisesFirst, RaisesLast, sep_bytes, SepFits, Planned, FirstLow};

use crate::key_types::user_key;
use codec::put::{NoRoom, end_of, put_bytes};
use std::cmp::Ordering;

// A separator of a key a: a itself; a and then a 0 byte; the first len bytes of a, that at a place raised by one.
#[derive(Clone, Copy)]
enum Sep {
    Whole,
    Longer,
    Raised { at: usize, len: usize },
}

// The number of eight bytes of s, the first the greatest: the order of such numbers is the order of the bytes.
fn eight(s: &[u8], i: usize) -> u64
    requires { i + 8 ≤ length s.now }
    ensures { result ≡ big_of (part s.now i 8) }
{
    u64::from_be_bytes([
        s[i],
        s[i + 1],
        s[i + 2],
        s[i + 3],
        s[i + 4],
        s[i + 5],
        s[i + 6],
        s[i + 7],
    ])
}

// A place up to which a and b are the same, found by eights.
fn common_eights(a: &[u8], b: &[u8]) -> usize
    ensures { (result ≤ min (length a.now) (length b.now)) × (take result a.now ≡ take result b.now) }
{
    let n = a.len().min(b.len());
    for k in 0..n / 8 {
        if eight(a, 8 * k) != eight(b, 8 * k) {
            return 8 * k;
        }
    }
    n / 8 * 8
}

// How many bytes a and b share at their start, counted from a place up to which they are the same.
fn common_from(a: &[u8], b: &[u8], from: usize) -> usize
    requires { (from ≤ min (length a.now) (length b.now)) × (take from a.now ≡ take from b.now) }
    ensures { result ≡ common a.now b.now }
{
    let n = a.len().min(b.len());
    for i in from..n {
        if a[i] != b[i] {
            return i;
        }
    }
    n
}

// How many bytes a and b share at their start.
pub fn common_len(a: &[u8], b: &[u8]) -> usize
    ensures { result ≡ common a.now b.now }
{
    common_from(a, b, common_eights(a, b))
}

// a against b, byte by byte.
fn cmp_short(a: &[u8], b: &[u8]) -> Ordering
    ensures { result ≡ order_answer (by_bytes a.now b.now) }
{
    let i = common_from(a, b, 0);
    if i < a.len().min(b.len()) {
        a[i].cmp(&b[i])
    } else {
        a.len().cmp(&b.len())
    }
}

// a against b by bytes, a start below what goes on from it.
pub fn cmp(a: &[u8], b: &[u8]) -> Ordering
    ensures { result ≡ order_answer (by_bytes a.now b.now) }
{
    let n = a.len().min(b.len());
    if n < 8 {
        return cmp_short(a, b);
    }
    for k in 0..(n - 1) / 8 {
        let x = eight(a, 8 * k);
        let y = eight(b, 8 * k);
        if x != y {
            return x.cmp(&y);
        }
    }
    // the last eight, some of them for the second time
    let x = eight(a, n - 8);
    let y = eight(b, n - 8);
    if x != y {
        return x.cmp(&y);
    }
    a.len().cmp(&b.len())
}

// Whether a and b are the same bytes.
pub fn same(a: &[u8], b: &[u8]) -> bool
    ensures { result ≡ same_bytes a.now b.now }
{
    a.len() == b.len() && common_len(a, b) == a.len()
}

// Whether the bytes of front, x and those of back are below b.
fn joined_below(front: &[u8], x: u8, back: &[u8], b: &[u8]) -> bool
    ensures { result ≡ bytes_below (front.now ++ (x ∷ back.now)) b.now }
{
    let n = front.len();
    if b.len() <= n {
        return cmp(front, b).is_lt();
    }
    match cmp(front, &b[..n]).then(x.cmp(&b[n])) {
        Ordering::Equal => cmp(back, &b[n + 1..]).is_lt(),
        apart => apart.is_lt(),
    }
}

// Whether the first n bytes of a, that at i raised by one, are below b.
#[tactic(auto, unfolding(crate::specs::Plan::raised, codec::specs::Bytes::part))]
fn raised_below(a: &[u8], i: usize, n: usize, b: &[u8]) -> bool
    requires { Raisable a.now i n }
    ensures { result ≡ bytes_below (raised a.now i n) b.now }
{
    joined_below(&a[..i], a[i] + 1, &a[i + 1..n], b)
}

// Whether the bytes of a plan over a are below b.
fn sep_below(a: &[u8], s: Sep, b: &[u8]) -> bool
    requires { SepFits a.now s }
    ensures { result ≡ bytes_below (sep_bytes a.now s) b.now }
{
    match s {
        Sep::Whole => cmp(a, b).is_lt(),
        Sep::Longer => joined_below(a, 0, b"", b),
        Sep::Raised { at, len } => raised_below(a, at, len, b),
    }
}

// The first place at which a raised by one stays below b.
fn raised_first(a: &[u8], b: &[u8]) -> Option<usize>
    ensures { RaisesFirst a.now b.now result }
{
    a.iter()
        .zip(b)
        .position(|(x, y)| u32::from(*x) + 1 < u32::from(*y))
}

// The last place at which a can be raised.
fn raised_last(a: &[u8]) -> Option<usize>
    ensures { RaisesLast a.now result }
{
    a.iter().rposition(|x| *x < 255)
}

// `find_shortest_sep` of the text, as a plan.
fn shortest(a: &[u8], b: &[u8]) -> Sep
    ensures { Planned a.now result (shortest_sep a.now b.now) }
{
    if let Some(at) = raised_first(a, b) {
        return Sep::Raised { at, len: at + 1 };
    }
    match raised_last(a) {
        Some(at) if raised_below(a, at, a.len(), b) => Sep::Raised { at, len: a.len() },
        _ => Sep::Longer,
    }
}

// The user separator of a and b, as a plan.
fn plan(a: &[u8], b: &[u8]) -> Sep
    ensures { Planned a.now result (user_sep a.now b.now) }
{
    if a.is_empty() || !cmp(a, b).is_lt() {
        return Sep::Whole;
    }
    let s = shortest(a, b);
    if sep_below(a, s, b) { s } else { Sep::Whole }
}

// Writes the bytes of front, x and those of back at a place of out.
fn put_joined(out: &mut [u8], at: usize, front: &[u8], x: u8, back: &[u8]) -> Result<usize, NoRoom>
    ensures { Wrote out.old at (front.now ++ (x ∷ back.now)) result out.new }
{
    end_of(out.len(), at, front.len() + 1 + back.len())?;
    let next = put_bytes(out, at, front)?;
    let next = put_bytes(out, next, &[x])?;
    put_bytes(out, next, back)
}

// Writes the first n bytes of a, that at i raised by one, at a place of out.
#[tactic(auto, unfolding(crate::specs::Plan::raised, codec::specs::Bytes::part))]
fn put_raised(out: &mut [u8], at: usize, a: &[u8], i: usize, n: usize) -> Result<usize, NoRoom>
    requires { Raisable a.now i n }
    ensures { Wrote out.old at (raised a.now i n) result out.new }
{
    put_joined(out, at, &a[..i], a[i] + 1, &a[i + 1..n])
}

// Writes the bytes of a plan over a at a place of out.
fn put_sep(out: &mut [u8], at: usize, a: &[u8], s: Sep) -> Result<usize, NoRoom>
    requires { SepFits a.now s }
    ensures { Wrote out.old at (sep_bytes a.now s) result out.new }
{
    match s {
        Sep::Whole => put_bytes(out, at, a),
        Sep::Longer => put_joined(out, at, a, 0, b""),
        Sep::Raised { at: i, len: n } => put_raised(out, at, a, i, n),
    }
}

// Writes the user separator of a and b at a place of out.
pub fn find_shortest_sep(out: &mut [u8], at: usize, a: &[u8], b: &[u8]) -> Result<usize, NoRoom>
    ensures { Wrote out.old at (user_sep a.now b.now) result out.new }
{
    put_sep(out, at, a, plan(a, b))
}

// Writes the first n bytes of a, that at i raised by one, and then the tag of the first key of a word.
fn put_tagged(out: &mut [u8], at: usize, a: &[u8], i: usize, n: usize) -> Result<usize, NoRoom>
    requires { Raisable a.now i n }
    ensures { Wrote out.old at (raised a.now i n ++ last_tag) result out.new }
{
    end_of(out.len(), at, n + 8)?;
    let next = put_raised(out, at, a, i, n)?;
    put_bytes(out, next, b"\x01\xff\xff\xff\xff\xff\xff\xff")
}

// Writes the separator of two internal keys at a place of out.
pub fn find_internal_sep(out: &mut [u8], at: usize, a: &[u8], b: &[u8]) -> Result<usize, NoRoom>
    ensures { Wrote out.old at (separator a.now b.now) result out.new }
{
    let u = user_key(a);
    match plan(u, user_key(b)) {
        Sep::Raised { at: i, len: n } if n < u.len() => put_tagged(out, at, u, i, n),
        _ => put_bytes(out, at, a),
    }
}

// The place of the first byte of a key that is not 255.
fn first_low(key: &[u8]) -> Option<usize>
    ensures { FirstLow key.now result }
{
    key.iter().position(|b| *b != 255)
}

// Writes the successor of a user key at a place of out.
pub fn find_short_succ(out: &mut [u8], at: usize, key: &[u8]) -> Result<usize, NoRoom>
    ensures { Wrote out.old at (short_succ key.now) result out.new }
{
    match first_low(key) {
        Some(n) => put_joined(out, at, &key[..n], key[n] + 1, b""),
        None => put_joined(out, at, key, 255, b""),
    }
}
