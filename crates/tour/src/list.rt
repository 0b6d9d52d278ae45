// The lines of the list and their fields, which a blank ends.
use std::alloc::{AllocError, Global};

// So many lines at most are read.
pub const MOST: usize = 1000;

#[derive(Clone, Copy, PartialEq, Eq)]
pub enum Kind {
    Entry,
    Question,
}

// An entry, or a question, which has no cells.
#[derive(Clone, Copy)]
pub struct Line<'a> {
    pub kind: Kind,
    pub word: &'a [u8],
    pub edition: u64,
    pub cells: &'a [u8],
}

// An edition of one digit.
fn edition(field: &[u8]) -> u64 {
    field
        .first()
        .map_or(0, |b| u64::from(b.saturating_sub(b'0')))
}

impl<'a> Line<'a> {
    // A line is of a kind by its first byte. A field that it lacks is empty.
    fn new(line: &'a [u8]) -> Option<Self> {
        let kind = match line.first()? {
            b'+' => Kind::Entry,
            b'?' => Kind::Question,
            _ => return None,
        };
        let mut fields = line.splitn(4, |b| *b == b' ').skip(1);
        Some(Line {
            kind,
            word: fields.next().unwrap_or(b""),
            edition: edition(fields.next().unwrap_or(b"")),
            cells: fields.next().unwrap_or(b""),
        })
    }
}

// The entries and questions of a list.
pub fn read(alloc: Global, text: &[u8]) -> Result<Vec<Line<'_>>, AllocError> {
    text.split(|b| *b == b'\n')
        .take(MOST)
        .filter_map(|line| Line::new(line))
        .collect(alloc)
}
