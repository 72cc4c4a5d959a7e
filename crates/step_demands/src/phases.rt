// The phase that detectors do not demand.
ghost use Rattle.std.specs.Prelude.{◌≡◌, ◌<◌};
ghost use Rattle.laws.specs.Folds.{set_of};
ghost use Rattle.rules.specs.Demands.{in_green};

use base_bytes::sets;
use rules::state::Position;

// The phase of the state as a set if it is in minimum green or running; else the empty set.
pub fn in_green(position: Position) -> u8
    requires { position.phase < 8 }
    ensures { result ≡ set_of (in_green position) }
{
    if base_intervals::is_green(position.interval) {
        sets::with(0, position.phase)
    } else {
        0
    }
}
