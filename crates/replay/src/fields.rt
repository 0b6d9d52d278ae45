// The fields of a line: bytes in hex, with * and a count where a byte stands often, - for none; decimal numbers.
ghost use Rattle.std.specs.Prelude.{◌<◌, ◌≤◌, length, IfSome};

// What is left of a line.
#[derive(Drop)]
pub struct Fields<'a> {
    rest: &'a [u8],
}

// The value of a hex digit.
fn digit(b: u8) -> Option<u8>
    ensures { IfSome result (λ d. d < 16) }
{
    match b {
        b'0'..=b'9' => Some(b - b'0'),
        b'a'..=b'f' => Some(b - b'a' + 10),
        _ => None,
    }
}

impl<'a> Fields<'a> {
    // The fields behind a line's command and its blank.
    pub fn new(line: &'a [u8]) -> Self {
        let mut fields = Fields { rest: line };
        fields.skip(2);
        fields
    }

    pub fn is_empty(&self) -> bool {
        self.rest.is_empty()
    }

    fn skip(&mut self, n: usize) {
        self.rest = &self.rest[n.min(self.rest.len())..];
    }

    fn next(&mut self) -> Option<u8>
        ensures shorter { IfSome result (λ _. length self.new.rest.now < length self.old.rest.now) }
        ensures no_longer { length self.new.rest.now ≤ length self.old.rest.now }
    {
        let (first, rest) = self.rest.split_first()?;
        self.rest = rest;
        Some(*first)
    }

    // A decimal number; the byte that ends it is passed over.
    pub fn number(&mut self) -> usize
        ensures { length self.new.rest.now ≤ length self.old.rest.now }
    {
        let mut value: usize = 0;
        while let Some(b @ b'0'..=b'9') = self.next() {
            if value < 0x0800_0000_0000_0000 {
                value = value * 10 + usize::from(b - b'0');
            }
        }
        value
    }

    // The byte that two hex digits name. What is no digit is passed over, and so is a digit alone.
    fn byte(&mut self) -> Option<u8>
        ensures { IfSome result (λ _. length self.new.rest.now < length self.old.rest.now) }
    {
        let high = digit(self.next()?)?;
        let low = digit(*self.rest.first()?)?;
        self.next();
        Some(high * 16 + low)
    }

    // How often the byte before stands.
    fn times(&mut self) -> usize
        ensures { length self.new.rest.now ≤ length self.old.rest.now }
    {
        match self.rest {
            [b'*', count @ ..] => {
                self.rest = count;
                self.number()
            }
            _ => 1,
        }
    }

    // The bytes of a field, written to the front of a run as far as it has room.
    pub fn field<'b>(&mut self, run: &'b mut [u8]) -> &'b [u8] {
        if self.rest.first().copied().and_then(digit).is_none() {
            self.skip(2);
            return &run[..0];
        }
        let mut len: usize = 0;
        while let Some(b) = self.byte() {
            let end = len.saturating_add(self.times()).min(run.len());
            run[len..end].fill(b);
            len = end;
        }
        &run[..len]
    }

    // The number of up to 8 bytes, least first.
    pub fn long(&mut self) -> u64 {
        let mut eight = [0u8; 8];
        self.field(&mut eight);
        u64::from_le_bytes(eight)
    }
}
