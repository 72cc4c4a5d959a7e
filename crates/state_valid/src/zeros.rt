// Whether times are 0: the settings of a record that a site does not have, and a run of bytes.
ghost use Rattle.std.specs.Prelude.{◌+◌, ◌*◌, ◌≤◌, Bool, [], ◌≡◌, eqb, length};
ghost use Rattle.laws.specs.Bytes.{byte_at};
ghost use Rattle.laws.specs.Folds.{all_of};
ghost use Rattle.rules.specs.SiteTimes.{phase_within, walk_within};
ghost use Rattle.state_times.specs.TimesLayout.{six, phase_of, walk as walk_form};

use base_bytes::{eight_in, four_in, two_in};

// The settings of a phase: its 12 bytes, and its kind 7 time.
pub fn phase(bytes: &[u8], at: usize, early: u16) -> bool
    requires { at + six.width ≤ length bytes.now }
    ensures { (has : Bool) → result ≡ phase_within [] has (phase_of (six.read bytes.now at) early) }
{
    (eight_in(bytes, at) == 0) & (four_in(bytes, at + 8) == 0) & (early == 0)
}

// The settings of a movement.
pub fn walk(bytes: &[u8], at: usize) -> bool
    requires { at + walk_form.width ≤ length bytes.now }
    ensures { result ≡ walk_within [] (walk_form.read bytes.now at) }
{
    (four_in(bytes, at) == 0) & (two_in(bytes, at + 4) == 0)
}

// A run of bytes, as numbers of four bytes; `fours` is how many. Byte by byte, with `all`, it takes four times as many turns, and each has a test.
pub fn all(bytes: &[u8], at: usize, fours: usize) -> bool
    requires { at + 4 * fours ≤ length bytes.now }
    ensures { result ≡ all_of (λ i. eqb (byte_at bytes.now (at + i)) 0) (4 * fours) }
{
    let mut zero = true;
    for i in 0..fours {
        zero &= four_in(bytes, at + 4 * i) == 0;
    }
    zero
}
