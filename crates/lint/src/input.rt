// Reading a script.
ghost use Rattle.std.specs.Prelude.{◌≤◌, length, IfOk};

use std::io;
use std::io::Read;

// Reads to the end, or until the page is full. A turn that does not end the reading gets a byte
// at least, so the page has as many turns as it needs.
pub fn fill<R: Read>(source: &mut R, page: &mut [u8]) -> io::Result<usize>
    ensures { IfOk result (λ n. n ≤ length page.new) }
{
    let mut filled = 0;
    for _ in 0..page.len() {
        let n = source.read(&mut page[filled..])?;
        if n == 0 {
            break;
        }
        filled += n;
    }
    Ok(filled)
}
