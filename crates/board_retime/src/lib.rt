// The retiming call of the board interface: the state is bytes, and the answer is one number (board_answers).
#![tactic(auto)]

mod differs;

ghost use Rattle.std.specs.Prelude.{◌≡◌};
ghost use Rattle.rules.specs.Call.{bound_for};
ghost use Rattle.board_retime.specs.RetimeCall.{retime_checks, retime_answer, retime_after};

use board_answers::answer;
use differs::differs_elsewhere;
use read_personality::accepted;
use rules::answer::Refusal;
use site_rows::Fitted;

#[tactic(auto, using(rules::proofs::Checks::checks), unfolding(rules::specs::Call::bound_for, rules::specs::Call::handed_back, crate::specs::RetimeCall::retime_checks, crate::specs::RetimeCall::retime_after))]
fn tried(personality: &[u8], state: &mut [u8], new: &[u8]) -> Result<u32, Refusal>
    ensures answer { result ≡ bound_for (retime_checks personality.now state.old new.now) 0 }
    ensures state { state.new ≡ retime_after personality.now state.old new.now }
{
    let p = accepted(personality)?;
    if !state_valid::is_state_of(&p, state) {
        return Err(Refusal {
            number: 13,
            place: 0,
        });
    }
    let next = accepted(new)?;
    if differs_elsewhere(&p, new) {
        return Err(Refusal {
            number: 26,
            place: 0,
        });
    }
    state_timed::put_waiting(state, site_whole::own_times(&Fitted::of(&next)));
    Ok(0)
}

// Makes the times of a second personality wait in the state. A refused call changes nothing. The first personality is checked first, then
// whether the bytes are a valid state of it (13), then the second personality, then whether it differs in more than time settings (26).
#[tactic(auto, using(board_answers::proofs::Answers::packed_plain), unfolding(crate::specs::RetimeCall::retime_answer))]
pub fn retime(personality: &[u8], state: &mut [u8], new: &[u8]) -> u64
    ensures { (result ≡ retime_answer personality.now state.old new.now)
        × (state.new ≡ retime_after personality.now state.old new.now) }
{
    answer(tried(personality, state, new))
}
