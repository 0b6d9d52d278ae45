// Answers in numbers that several functions share.
ghost use Rattle.std.specs.Prelude.{◌≡◌, cond};

use codec::put::NoRoom;

// 0 and the size of what was written, or 2 where there is no room for it.
#[repr(C)]
#[derive(Clone, Copy)]
pub struct SalevoniSize {
    pub answer: u32,
    pub size: usize,
}

// What writing at the front of a run answers.
impl From<Result<usize, NoRoom>> for SalevoniSize {
    ghost use Rattle.pieces.specs.Numbers.{size_out};

    ghost from_gives = { λ r x. x ≡ size_out r };

    fn from(r: Result<usize, NoRoom>) -> SalevoniSize {
        match r {
            Ok(size) => SalevoniSize { answer: 0, size },
            Err(NoRoom) => SalevoniSize { answer: 2, size: 0 },
        }
    }
}

// One number or the other, by a test.
pub fn number_if(b: bool, yes: u32, other: u32) -> u32
    ensures { result ≡ cond b yes other }
{
    if b { yes } else { other }
}
