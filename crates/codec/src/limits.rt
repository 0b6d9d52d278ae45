// Numbers within limits.
ghost use Rattle.std.specs.Prelude.{◌≡◌, min};
ghost use Rattle.codec.specs.Limits.{within};

// The smaller of two numbers.
pub fn least(a: usize, b: usize) -> usize
    ensures { result ≡ min a b }
{
    if a < b { a } else { b }
}

// Whether a number is one of those from low to high.
pub fn within(low: usize, high: usize, x: usize) -> bool
    ensures { result ≡ within low high x }
{
    if x < low {
        return false;
    }
    x <= high
}
