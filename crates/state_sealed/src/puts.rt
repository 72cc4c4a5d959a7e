// Writes into bytes at a given place. The other bytes stay.
ghost use Rattle.std.specs.Prelude.{◌+◌, ◌≤◌, ◌≡◌, length};
ghost use Rattle.std.proofs.lemmas.List.Edits.{sets};
ghost use Rattle.rules.specs.Junctions.{four};

use state_forms::put_all;

// A number of four bytes.
pub fn put_four(bytes: &mut [u8], at: usize, x: u32)
    requires { at + 4 ≤ length bytes.old }
    ensures { bytes.new ≡ sets bytes.old at (four x) }
{
    put_all(bytes, at, &x.to_le_bytes());
}
