// The position in 8 bytes: phase, interval, age, came-from, target.
ghost use Rattle.std.specs.Prelude.{◌+◌, ◌≤◌, true, ◌≡◌, length};
ghost use Rattle.std.proofs.lemmas.List.Edits.{sets};
ghost use Rattle.state_bytes.specs.Layout.{position as position_form};

use rules::state::Position;

const PHASE: usize = 0;

const INTERVAL: usize = 1;

const AGE: usize = 2;

const CAME: usize = 4;

const TARGET: usize = 6;

pub fn known(bytes: &[u8], at: usize) -> bool
    requires { at + position_form.width ≤ length bytes.now }
    ensures { result ≡ position_form.known bytes.now at }
{
    base_intervals::interval_known(bytes[at + INTERVAL])
        && state_forms::held_known(bytes, at + CAME)
        && state_forms::held_known(bytes, at + TARGET)
}

pub fn read(bytes: &[u8], at: usize) -> Position
    requires { (at + position_form.width ≤ length bytes.now) × (position_form.known bytes.now at ≡ true) }
    ensures { result ≡ position_form.read bytes.now at }
{
    Position {
        phase: bytes[at + PHASE],
        interval: base_intervals::interval_of(bytes[at + INTERVAL]),
        age: base_bytes::two_in(bytes, at + AGE),
        previous: state_forms::get_held(bytes, at + CAME),
        target: state_forms::get_held(bytes, at + TARGET),
    }
}

pub fn put(bytes: &mut [u8], at: usize, position: Position)
    requires { at + position_form.width ≤ length bytes.old }
    ensures { bytes.new ≡ sets bytes.old at (position_form.written position) }
{
    bytes[at + PHASE] = position.phase;
    bytes[at + INTERVAL] = base_intervals::interval_row(position.interval).code;
    state_forms::put_two(bytes, at + AGE, position.age);
    state_forms::put_held(bytes, at + CAME, position.previous);
    state_forms::put_held(bytes, at + TARGET, position.target);
}
