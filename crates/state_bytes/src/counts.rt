// The gap count and the maximum count, in 4 bytes. Any 4 bytes are such counts.
ghost use Rattle.std.specs.Prelude.{◌+◌, ◌≤◌, ◌≡◌, length};
ghost use Rattle.std.proofs.lemmas.List.Edits.{sets};
ghost use Rattle.state_bytes.specs.Layout.{counts as counts_form};

use rules::state::Counts;

const GAP: usize = 0;

const MAXIMUM: usize = 2;

pub fn read(bytes: &[u8], at: usize) -> Counts
    requires { at + counts_form.width ≤ length bytes.now }
    ensures { result ≡ counts_form.read bytes.now at }
{
    Counts {
        gap: base_bytes::two_in(bytes, at + GAP),
        maximum: base_bytes::two_in(bytes, at + MAXIMUM),
    }
}

pub fn put(bytes: &mut [u8], at: usize, counts: Counts)
    requires { at + counts_form.width ≤ length bytes.old }
    ensures { bytes.new ≡ sets bytes.old at (counts_form.written counts) }
{
    state_forms::put_two(bytes, at + GAP, counts.gap);
    state_forms::put_two(bytes, at + MAXIMUM, counts.maximum);
}
