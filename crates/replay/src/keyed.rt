// Commands on keys.
use crate::fields::Fields;
use crate::show;
use crate::show::Out;
use keys::key_types::ValueType;
use keys::{cmp, key_types};
use std::cmp::Ordering;
use std::io;
use std::io::Write;

fn name_of(order: Ordering) -> &'static str {
    match order {
        Ordering::Less => "less",
        Ordering::Equal => "equal",
        Ordering::Greater => "greater",
    }
}

// Two words.
pub fn compare(to: &mut Out, line: &mut Fields) -> io::Result<()> {
    let mut a = [0u8; 1100];
    let mut b = [0u8; 1100];
    let x = line.field(&mut a);
    let y = line.field(&mut b);
    write!(to, " {} {}", name_of(cmp::cmp(x, y)), cmp::common_len(x, y))
}

// Two internal keys.
pub fn compare_keys(to: &mut Out, line: &mut Fields) -> io::Result<()> {
    let mut a = [0u8; 1100];
    let mut b = [0u8; 1100];
    let x = line.field(&mut a);
    let y = line.field(&mut b);
    write!(to, " {}", name_of(key_types::cmp_internal_key(x, y)))
}

// An internal key, and a word as of a sequence.
pub fn target(to: &mut Out, line: &mut Fields) -> io::Result<()> {
    let mut a = [0u8; 1100];
    let mut b = [0u8; 1100];
    let key = line.field(&mut a);
    let word = line.field(&mut b);
    let sequence = line.number() as u64;
    write!(
        to,
        " {}",
        name_of(key_types::cmp_target(key, word, sequence))
    )
}

pub fn parse(to: &mut Out, line: &mut Fields) -> io::Result<()> {
    let mut a = [0u8; 1100];
    let Some(parsed) = key_types::parse_internal_key(line.field(&mut a)) else {
        return write!(to, " too short");
    };
    let kind = match parsed.kind {
        ValueType::TypeDeletion => "deletion",
        ValueType::TypeValue => "value",
    };
    write!(to, " {} {} {kind}", parsed.user_len, parsed.sequence)
}

// The internal key of a word, an edition and a kind.
pub fn build(to: &mut Out, line: &mut Fields) -> io::Result<()> {
    let mut a = [0u8; 1100];
    let word = line.field(&mut a);
    let sequence = line.number() as u64;
    let kind = (line.number() % 256) as u8;
    show::written(to, |run, at| {
        key_types::build_internal_key(run, at, word, sequence, kind)
    })
}

// The separator of two words.
pub fn separate(to: &mut Out, line: &mut Fields) -> io::Result<()> {
    let mut a = [0u8; 1100];
    let mut b = [0u8; 1100];
    let x = line.field(&mut a);
    let y = line.field(&mut b);
    show::written(to, |run, at| cmp::find_shortest_sep(run, at, x, y))
}

// The separator of two internal keys.
pub fn separate_keys(to: &mut Out, line: &mut Fields) -> io::Result<()> {
    let mut a = [0u8; 1100];
    let mut b = [0u8; 1100];
    let x = line.field(&mut a);
    let y = line.field(&mut b);
    show::written(to, |run, at| cmp::find_internal_sep(run, at, x, y))
}

// A short word not below one.
pub fn succeed(to: &mut Out, line: &mut Fields) -> io::Result<()> {
    let mut a = [0u8; 1100];
    let word = line.field(&mut a);
    show::written(to, |run, at| cmp::find_short_succ(run, at, word))
}
