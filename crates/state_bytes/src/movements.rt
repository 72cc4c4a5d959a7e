// The eight movement records, 3 bytes each.
ghost use Rattle.std.specs.Prelude.{◌+◌, ◌≤◌, true, ◌≡◌, length};
ghost use Rattle.std.proofs.lemmas.List.Edits.{sets};
ghost use Rattle.state_bytes.specs.Layout.{movement, movements as movements_form};

use rules::state::{Movement, Stage};

const STAGE: usize = 0;

const AGE: usize = 1;

const RECORD: usize = 3;

// Whether all stages are known. The known codes are 0 to 3, so it is enough to test the bitwise or of all eight.
pub fn known(bytes: &[u8], at: usize) -> bool
    requires { at + movements_form.width ≤ length bytes.now }
    ensures { result ≡ movements_form.known bytes.now at }
{
    let mut joined = 0;
    for k in 0..8 {
        joined |= bytes[at + k * RECORD + STAGE];
    }
    base_intervals::stage_known(joined)
}

fn read_one(bytes: &[u8], at: usize) -> Movement
    requires { (at + movement.width ≤ length bytes.now) × (movement.known bytes.now at ≡ true) }
    ensures { result ≡ movement.read bytes.now at }
{
    Movement {
        stage: base_intervals::stage_of(bytes[at + STAGE]),
        age: base_bytes::two_in(bytes, at + AGE),
    }
}

pub fn read(bytes: &[u8], at: usize) -> [Movement; 8]
    requires { (at + movements_form.width ≤ length bytes.now) × (movements_form.known bytes.now at ≡ true) }
    ensures { result ≡ movements_form.read bytes.now at }
{
    let idle = Movement {
        stage: Stage::Idle,
        age: 1,
    };
    state_forms::row(8, idle, |k| read_one(bytes, at + k * RECORD))
}

fn put_one(bytes: &mut [u8], at: usize, own: Movement)
    requires { at + movement.width ≤ length bytes.old }
    ensures { bytes.new ≡ sets bytes.old at (movement.written own) }
{
    bytes[at + STAGE] = base_intervals::stage_row(own.stage).code;
    state_forms::put_two(bytes, at + AGE, own.age);
}

pub fn put(bytes: &mut [u8], at: usize, movements: [Movement; 8])
    requires { at + movements_form.width ≤ length bytes.old }
    ensures { bytes.new ≡ sets bytes.old at (movements_form.written movements) }
{
    state_forms::put_row(bytes, at, RECORD, &movements, put_one);
}
