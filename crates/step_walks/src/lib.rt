// Part 5 of a step: walks. If a phase starts, its demanded movements begin their walk. They also begin it in running, if they are idle and
// no other phase is demanded. A walk that begins has age 1, and its demand is cleared.
#![tactic(auto)]

ghost use Rattle.std.specs.Prelude.{◌≡◌, ◌&&◌, ◌||◌};
ghost use Rattle.rules.specs.IntervalTable.{is_idle};
ghost use Rattle.rules.specs.Walks.{begins};
ghost use Rattle.step_walks.specs.Begun.{begun_by};

use base_bytes::sets;
use rules::state::{Movement, Position, Stage};

// The button demands that are left, and the movements.
#[derive(Clone, Copy)]
pub struct Begun {
    pub buttons: u8,
    pub movements: [Movement; 8],
}

// Whether a demanded movement begins its walk; `own` says if it is a movement of the phase, `free` if walks may begin in running.
fn may_begin(own: bool, starts: bool, free: bool, stage: Stage) -> bool
    ensures { result ≡ (own && (starts || (free && is_idle stage))) }
{
    own && (starts || free && base_intervals::is_idle(stage))
}

// Begins the walks. Only demanded movements can begin one, and none does if no phase starts and running does not allow it. Each turn of
// the loop takes the lowest demanded movement that is left.
pub fn begun_by(
    crossings: &[u8; 8],
    starts: bool,
    another: bool,
    now: Position,
    buttons: u8,
    movements: [Movement; 8],
) -> Begun
    ensures { result ≡ begun_by (begins crossings.now starts another now buttons movements) buttons movements }
{
    let mut begun = Begun { buttons, movements };
    let free = base_intervals::is_running(now.interval) && !another;
    if !(starts || free) {
        return begun;
    }
    let mut rest = u64::from(buttons);
    while rest != 0 {
        let k = rest.trailing_zeros() as u8;
        let i = usize::from(k);
        let own = base_bytes::bit8(now.phase, crossings[i]);
        if may_begin(own, starts, free, begun.movements[i].stage) {
            begun.buttons = sets::without(begun.buttons, k);
            begun.movements[i] = Movement {
                stage: Stage::Walk,
                age: 1,
            };
        }
        rest &= rest - 1;
    }
    begun
}
