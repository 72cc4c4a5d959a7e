// The step call of the board interface: the state is bytes, and the answer is one number (board_answers).
#![tactic(auto)]

mod accepted;

ghost use Rattle.std.specs.Prelude.{◌≡◌, length};
ghost use Rattle.rules.specs.Call.{bound_for};
ghost use Rattle.rules.specs.Site.{site_of};
ghost use Rattle.rules.specs.Timed.{ruled_site};
ghost use Rattle.rules.specs.WaitBound.{wait_bound};
ghost use Rattle.board_step.specs.StepCall.{step_checks, stepped_in, step_answer, state_after, colours_after};

use board_answers::answer;
use rules::answer::Refusal;
use state_timed::{REST, RULING, WAITING};

fn tried(
    personality: &[u8],
    state: &mut [u8],
    inputs: u64,
    colours: &mut [u8],
) -> Result<u32, Refusal>
    ensures { (result ≡ bound_for (step_checks personality.now state.old inputs (length colours.old))
        (wait_bound (ruled_site (site_of personality.now) (stepped_in personality.now state.old inputs))))
        × (state.new ≡ state_after personality.now state.old inputs (length colours.old))
        × (colours.new ≡ colours_after personality.now state.old inputs colours.old) }
{
    let p = read_personality::accepted(personality)?;
    if !state_timed::is_timed(state) || !state_valid::times_valid(&p, state) {
        return Err(Refusal {
            number: 13,
            place: 0,
        });
    }
    let mut site = state_valid::site_under(&p, state, RULING);
    let mut before = state_bytes::read(state, REST);
    if !step_valid::kept_valid(&site, before) {
        return Err(Refusal {
            number: 13,
            place: 0,
        });
    }
    if step_valid::stray_input(&site, inputs) {
        return Err(Refusal {
            number: 15,
            place: 0,
        });
    }
    if colours.len() < usize::from(site.site.size.groups) {
        return Err(Refusal {
            number: 14,
            place: 0,
        });
    }
    let over = accepted::takes_over(&site, before, state);
    if over {
        site = state_valid::site_under(&p, state, WAITING);
        before = step_change::ready(before);
    }
    let next = step_whole::kept_stepped(&site, before, inputs);
    accepted::put_next(state, &site, next, over);
    Ok(accepted::shown(&site, next, colours))
}

// One step of 0.1 s: replaces the state by the next state, writes the colours of the groups, and answers the wait bound. A refused step
// changes nothing. The personality is checked first, then whether the bytes are a valid state of it (13), the inputs (15) and the length of
// the buffer (14).
#[tactic(auto, unfolding(crate::specs::StepCall::step_answer))]
pub fn step(personality: &[u8], state: &mut [u8], inputs: u64, colours: &mut [u8]) -> u64
    ensures { (result ≡ step_answer personality.now state.old inputs (length colours.old))
        × (state.new ≡ state_after personality.now state.old inputs (length colours.old))
        × (colours.new ≡ colours_after personality.now state.old inputs colours.old) }
{
    answer(tried(personality, state, inputs, colours))
}
