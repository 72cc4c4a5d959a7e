// The fresh call of the board interface: the state is bytes, and the answer is one number (board_answers).
#![tactic(auto)]

ghost use Rattle.std.specs.Prelude.{◌≡◌};
ghost use Rattle.rules.specs.Call.{bound_for};
ghost use Rattle.board_fresh.specs.FreshCall.{fresh_verdict, fresh_answer, fresh_after};

use board_answers::answer;
use read_personality::accepted;
use rules::answer::Refusal;
use state_timed::TIMED_BYTES;

#[tactic(auto, using(rules::proofs::Checks::checks), unfolding(rules::specs::Call::bound_for, rules::specs::Call::handed_back, crate::specs::FreshCall::fresh_verdict, crate::specs::FreshCall::fresh_after))]
fn tried(personality: &[u8], state: &mut [u8]) -> Result<u32, Refusal>
    ensures answer { result ≡ bound_for (fresh_verdict personality.now state.old) 0 }
    ensures state { state.new ≡ fresh_after personality.now state.old }
{
    let p = accepted(personality)?;
    if state.len() != TIMED_BYTES {
        return Err(Refusal {
            number: 13,
            place: 0,
        });
    }
    state_fresh::put_fresh(&p, state);
    Ok(0)
}

// Writes the fresh state of a personality: its own times rule, and none wait. The personality is checked first, then whether the buffer has
// the length of a state (13). A refused call leaves the buffer as it is.
#[tactic(auto, using(board_answers::proofs::Answers::packed_plain), unfolding(crate::specs::FreshCall::fresh_answer))]
pub fn fresh(personality: &[u8], state: &mut [u8]) -> u64
    ensures { (result ≡ fresh_answer personality.now state.old)
        × (state.new ≡ fresh_after personality.now state.old) }
{
    answer(tried(personality, state))
}
