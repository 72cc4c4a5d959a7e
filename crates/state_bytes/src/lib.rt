// The state as 39 bytes, at any place of a buffer. The layout is in specs/Layout.antt.
#![tactic(auto)]

mod counts;
mod demands;
mod movements;
mod position;

ghost use Rattle.std.specs.Prelude.{◌+◌, ◌≤◌, true, ◌≡◌, length};
ghost use Rattle.std.proofs.lemmas.List.Edits.{sets};
ghost use Rattle.state_bytes.specs.Layout.{state as state_form};

use rules::state::{KeptState, State};

const POSITION: usize = 0;

const COUNTS: usize = 8;

const DEMANDS: usize = 12;

const MOVEMENTS: usize = 14;

const KEPT: usize = 38;

// Whether the 39 bytes at a place are a state. Counts and sets may have any value.
pub fn known(bytes: &[u8], at: usize) -> bool
    requires { at + state_form.width ≤ length bytes.now }
    ensures { result ≡ state_form.known bytes.now at }
{
    position::known(bytes, at + POSITION) && movements::known(bytes, at + MOVEMENTS)
}

pub fn read(bytes: &[u8], at: usize) -> KeptState
    requires { (at + state_form.width ≤ length bytes.now) × (state_form.known bytes.now at ≡ true) }
    ensures { result ≡ state_form.read bytes.now at }
{
    KeptState {
        core: State {
            position: position::read(bytes, at + POSITION),
            counts: counts::read(bytes, at + COUNTS),
            demands: demands::read(bytes, at + DEMANDS),
            movements: movements::read(bytes, at + MOVEMENTS),
        },
        kept: bytes[at + KEPT],
    }
}

pub fn put(bytes: &mut [u8], at: usize, state: KeptState)
    requires { at + state_form.width ≤ length bytes.old }
    ensures { bytes.new ≡ sets bytes.old at (state_form.written state) }
{
    position::put(bytes, at + POSITION, state.core.position);
    counts::put(bytes, at + COUNTS, state.core.counts);
    demands::put(bytes, at + DEMANDS, state.core.demands);
    movements::put(bytes, at + MOVEMENTS, state.core.movements);
    bytes[at + KEPT] = state.kept;
}
