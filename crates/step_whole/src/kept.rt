// The phases kept after parts 4 and 5 of a step.
ghost use Rattle.std.specs.Prelude.{◌≤◌, ◌≡◌, length};
ghost use Rattle.laws.specs.Bytes.{bit};
ghost use Rattle.laws.specs.Folds.{set_of};
ghost use Rattle.rules.specs.Kept.{kept_left};

use base_bytes::sets;
use rules::state::Demands;
use step_demands_buttons::movements;

// The kept set after demands were cleared. A phase leaves the set if a demand of it was cleared and none is left. Most steps clear none.
pub fn kept_left(crossings: &[u8], old: Demands, new: Demands, kept: u8) -> u8
    requires { length crossings.now ≤ 8 }
    ensures { result ≡ set_of (kept_left crossings.now (length crossings.now) old new (λ p. bit p kept)) }
{
    if old.locks == new.locks && old.buttons == new.buttons {
        return kept;
    }
    let gone = Demands {
        locks: sets::except(old.locks, new.locks),
        buttons: sets::except(old.buttons, new.buttons),
    };
    let cleared = movements::stands(crossings, gone);
    let standing = movements::stands(crossings, new);
    sets::except(kept, sets::except(cleared, standing))
}
