// Reads the input of a program part by part.
#![tactic(auto)]

ghost use Rattle.std.specs.Prelude.{◌≡◌, take, IfOk, IfSome};

use std::alloc::Global;
use std::io;
use std::io::Read;

// The next `most` bytes, fewer only where the input ends before.
pub fn next_bytes<R: Read>(alloc: Global, input: &mut R, most: u64) -> io::Result<Vec<u8>>
    ensures { IfOk result (λ v. IfSome (R.remaining input.old) (λ xs. v.items ≡ take most xs)) }
{
    let mut bytes = Vec::new(alloc);
    input.take(most).read_to_end(&mut bytes)?;
    Ok(bytes)
}
