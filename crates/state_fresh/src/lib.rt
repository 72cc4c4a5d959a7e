// The fresh state, with which a caller starts.
#![tactic(auto)]

ghost use Rattle.std.specs.Prelude.{◌≡◌, length};
ghost use Rattle.rules.specs.Kept.{fresh_kept};
ghost use Rattle.rules.specs.Site.{site_of};
ghost use Rattle.rules.specs.Timed.{fresh_timed};
ghost use Rattle.state_timed.specs.TimedLayout.{timed_bytes, timed_encoded};

use read_layout::Personality;
use rules::state::{Counts, Demands, Interval, KeptState, Movement, Position, Stage, State};
use site_rows::Fitted;

// Start red of phase A at age 1. There is no came-from and no target. All counts are 0, all sets empty, all movements idle at age 1.
#[tactic(auto, unfolding(rules::specs::Kept::fresh_kept, rules::specs::State::fresh))]
pub fn fresh() -> KeptState
    ensures { result ≡ fresh_kept }
{
    let idle = Movement {
        stage: Stage::Idle,
        age: 1,
    };
    KeptState {
        core: State {
            position: Position {
                phase: 0,
                interval: Interval::StartRed,
                age: 1,
                previous: None,
                target: None,
            },
            counts: Counts { gap: 0, maximum: 0 },
            demands: Demands {
                locks: 0,
                buttons: 0,
            },
            movements: [idle; 8],
        },
        kept: 0,
    }
}

// Writes the fresh state of an accepted personality: its own times rule, and none wait.
#[tactic(auto, unfolding(rules::specs::Timed::fresh_timed, rules::specs::Site::site_of))]
pub fn put_fresh(p: &Personality, state: &mut [u8])
    requires { length state.old ≡ timed_bytes }
    ensures { state.new ≡ timed_encoded (fresh_timed (site_of p.now)) }
{
    let times = site_whole::own_times(&Fitted::of(p));
    state_timed::put_settled(state, fresh(), times);
}
