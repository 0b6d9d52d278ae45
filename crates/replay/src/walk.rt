// Walks by the calls alone, all by one loop.
use crate::show::Out;
use std::io;
use std::io::Write;

// Visits all entries, and says how many there are: the first, and then the one after each place, by its number. A visit gives the
// entry's place, none after the last.
pub(crate) fn walk<P: Copy, V>(to: &mut Out, mut visit: V) -> io::Result<()>
where
    V: FnMut(&mut Out, Option<P>, usize) -> io::Result<Option<P>>,
    requires { V.IsAlwaysCallable visit }
{
    let mut place = visit(to, None, 0)?;
    let mut count: usize = 0;
    for n in 1..=65536 {
        if place.is_none() {
            break;
        }
        place = visit(to, place, n)?;
        count = n;
    }
    write!(to, " of {count}")
}
