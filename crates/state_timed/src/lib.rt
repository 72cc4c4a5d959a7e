// The timed state as 336 bytes, for callers in C and Rust. The layout is in specs/TimedLayout.antt.
#![tactic(auto)]

ghost use Rattle.std.specs.Prelude.{true, ◌≡◌, length};
ghost use Rattle.rules.specs.TimedCall.{retimed};
ghost use Rattle.state_timed.specs.TimedLayout.{settled, timed_bytes, is_timed, timed_decoded, timed_encoded};

use rules::site::Times;
use rules::state::KeptState;

// The places of the parts of a timed state in its bytes: the state without its times, the ruling times, whether times wait, and these.
pub const REST: usize = 0;

pub const RULING: usize = 39;

pub const PRESENT: usize = 187;

pub const WAITING: usize = 188;

// How many bytes a timed state has.
pub const TIMED_BYTES: usize = 336;

// The flag and the times of a state in which none wait.
const NONE_WAITING: [u8; 149] = [0; 149];

// Whether the bytes are a timed state. Times may have any value, and the flag 0 or 1.
pub fn is_timed(bytes: &[u8]) -> bool
    ensures { result ≡ is_timed bytes.now }
{
    if bytes.len() != TIMED_BYTES {
        return false;
    }
    state_bytes::known(bytes, REST) && bytes[PRESENT] < 2
}

// Writes a state in which these times rule and none wait.
pub fn put_settled(bytes: &mut [u8], state: KeptState, ruling: Times)
    requires { length bytes.old ≡ timed_bytes }
    ensures { bytes.new ≡ timed_encoded (settled ruling state) }
{
    state_bytes::put(bytes, REST, state);
    state_times::put(bytes, RULING, ruling);
    state_forms::put_all(bytes, PRESENT, &NONE_WAITING);
}

// Makes these times wait in a state, in the place of any that waited.
pub fn put_waiting(bytes: &mut [u8], times: Times)
    requires { is_timed bytes.old ≡ true }
    ensures { bytes.new ≡ timed_encoded (retimed (timed_decoded bytes.old) times) }
{
    bytes[PRESENT] = 1;
    state_times::put(bytes, WAITING, times);
}
