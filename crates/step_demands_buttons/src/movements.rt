// The phases that the demanded movements demand, and those that stand by them or by a lock.
ghost use Rattle.std.specs.Prelude.{◌≤◌, ◌≡◌, length};
ghost use Rattle.laws.specs.Folds.{set_of};
ghost use Rattle.rules.specs.Demands.{movement_demands, stands as stands_by};

use rules::state::Demands;

// The set of the phases of the demanded movements among those whose phase sets these are. Each turn takes the lowest movement that is left.
pub fn movement_demands(crossings: &[u8], buttons: u8) -> u8
    requires { length crossings.now ≤ 8 }
    ensures { result ≡ set_of (movement_demands crossings.now (length crossings.now) buttons) }
{
    let mut rest = u64::from(buttons) % (1u64 << crossings.len());
    let mut set = 0u8;
    while rest != 0 {
        set |= crossings[rest.trailing_zeros() as usize];
        rest &= rest - 1;
    }
    set
}

// The phases that are demanded by a lock or by a demanded movement, as a set.
pub fn stands(crossings: &[u8], demands: Demands) -> u8
    requires { length crossings.now ≤ 8 }
    ensures { result ≡ set_of (stands_by crossings.now (length crossings.now) demands) }
{
    demands.locks | movement_demands(crossings, demands.buttons)
}
