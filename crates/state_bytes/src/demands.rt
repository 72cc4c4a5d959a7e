// The set of locked phases and the set of demanded movements, in 2 bytes. Any 2 bytes are such sets.
ghost use Rattle.std.specs.Prelude.{◌+◌, ◌≤◌, ◌≡◌, length};
ghost use Rattle.std.proofs.lemmas.List.Edits.{sets};
ghost use Rattle.state_bytes.specs.Layout.{demands as demands_form};

use rules::state::Demands;

const LOCKS: usize = 0;

const BUTTONS: usize = 1;

pub fn read(bytes: &[u8], at: usize) -> Demands
    requires { at + demands_form.width ≤ length bytes.now }
    ensures { result ≡ demands_form.read bytes.now at }
{
    Demands {
        locks: bytes[at + LOCKS],
        buttons: bytes[at + BUTTONS],
    }
}

pub fn put(bytes: &mut [u8], at: usize, demands: Demands)
    requires { at + demands_form.width ≤ length bytes.old }
    ensures { bytes.new ≡ sets bytes.old at (demands_form.written demands) }
{
    bytes[at + LOCKS] = demands.locks;
    bytes[at + BUTTONS] = demands.buttons;
}
