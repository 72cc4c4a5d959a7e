// Times as 148 bytes. The layout is in specs/TimesLayout.antt. Any bytes are times, so there is no test.
#![tactic(auto)]

pub mod phases;
pub mod walks;

ghost use Rattle.std.specs.Prelude.{◌+◌, ◌≤◌, ◌≡◌, length};
ghost use Rattle.std.proofs.lemmas.List.Edits.{sets};
ghost use Rattle.state_times.specs.TimesLayout.{times as times_form};

use rules::site::Times;

// The places of the parts of times in their bytes.
const START: usize = 0;

pub const PHASES: usize = 2;

pub const WALKS: usize = 86;

pub const EARLIES: usize = 134;

// How many bytes a record of a phase has, one of a movement, and a kind 7 time.
pub const PHASE: usize = 12;

pub const WALK: usize = 6;

pub const EARLY: usize = 2;

// How many bytes times have.
pub const TIMES_BYTES: usize = 148;

pub fn put(bytes: &mut [u8], at: usize, times: Times)
    requires { at + times_form.width ≤ length bytes.old }
    ensures { bytes.new ≡ sets bytes.old at (times_form.written times) }
{
    state_forms::put_two(bytes, at + START, times.start);
    phases::put(bytes, at + PHASES, times.phases);
    walks::put(bytes, at + WALKS, times.walks);
    phases::put_early(bytes, at + EARLIES, times.phases);
}
