// Whether two records have the same bytes, by eight, four and two bytes at once: `==` of two slices is a call for each record, of some 40
// instructions against 6.
ghost use Rattle.std.specs.Prelude.{◌+◌, ◌≤◌, true, ◌≡◌, length};
ghost use Rattle.state_times.specs.TimesLayout.{six, walk as walk_form};

use base_bytes::{eight_in, four_in, two_in};

// The 12 bytes of a phase.
pub fn phase(s: &[u8], i: usize, t: &[u8], j: usize) -> bool
    requires { (i + six.width ≤ length s.now) × (j + six.width ≤ length t.now) }
    ensures { result ≡ true → six.read s.now i ≡ six.read t.now j }
{
    (eight_in(s, i) == eight_in(t, j)) & (four_in(s, i + 8) == four_in(t, j + 8))
}

// The 6 bytes of a movement.
pub fn walk(s: &[u8], i: usize, t: &[u8], j: usize) -> bool
    requires { (i + walk_form.width ≤ length s.now) × (j + walk_form.width ≤ length t.now) }
    ensures { result ≡ true → walk_form.read s.now i ≡ walk_form.read t.now j }
{
    (four_in(s, i) == four_in(t, j)) & (two_in(s, i + 4) == two_in(t, j + 4))
}
