// Two calls of the board interface for the time without power: a state is sealed into a record, and resumed from it at power-up. States and
// records are bytes, and the answer is one number (board_answers).
#![tactic(auto)]

ghost use Rattle.std.specs.Prelude.{◌≡◌};
ghost use Rattle.rules.specs.Verdicts.{refuse_if};
ghost use Rattle.rules.specs.Call.{bound_for};
ghost use Rattle.board_seal.specs.SealCall.{seal_verdict, seal_answer, seal_after, record_verdict, resume_verdict, resume_answer, resume_after};

use board_answers::answer;
use read_layout::Personality;
use read_personality::accepted;
use rules::answer::Refusal;
use state_sealed::SEALED_BYTES;
use state_timed::TIMED_BYTES;

#[tactic(auto, unfolding(rules::specs::Verdicts::refuse_if))]
fn refuse_if(refused: bool, number: u8) -> Result<(), Refusal>
    ensures { result ≡ refuse_if refused number 0 }
{
    if refused {
        return Err(Refusal { number, place: 0 });
    }
    Ok(())
}

#[tactic(auto, using(rules::proofs::Checks::checks), unfolding(rules::specs::Call::bound_for, rules::specs::Call::handed_back, crate::specs::SealCall::seal_verdict, crate::specs::SealCall::seal_after))]
fn tried_seal(personality: &[u8], state: &[u8], sealed: &mut [u8]) -> Result<u32, Refusal>
    ensures answer { result ≡ bound_for (seal_verdict personality.now state.now sealed.old) 0 }
    ensures sealed { sealed.new ≡ seal_after personality.now state.now sealed.old }
{
    let p = accepted(personality)?;
    refuse_if(!state_valid::is_state_of(&p, state), 13)?;
    refuse_if(sealed.len() != SEALED_BYTES, 14)?;
    state_sealed::write_sealed(personality, state, sealed);
    Ok(0)
}

// Writes the sealed record of a state: the personality is checked first, then whether the bytes are a valid state (13), then whether the
// buffer has the length of a record (14). A refused call leaves the buffer as it is.
#[tactic(auto, using(board_answers::proofs::Answers::packed_plain), unfolding(crate::specs::SealCall::seal_answer))]
pub fn seal(personality: &[u8], state: &[u8], sealed: &mut [u8]) -> u64
    ensures { (result ≡ seal_answer personality.now state.now sealed.old)
        × (sealed.new ≡ seal_after personality.now state.now sealed.old) }
{
    answer(tried_seal(personality, state, sealed))
}

// The checks of a record: another version (27), damaged (28), another personality (29), no valid state (13).
fn record_verdict(p: &Personality, sealed: &[u8]) -> Result<(), Refusal>
    ensures { result ≡ record_verdict p.now sealed.now }
{
    let sections = &p.sections;
    refuse_if(state_sealed::other_version(sealed), 27)?;
    refuse_if(state_sealed::damaged(sealed), 28)?;
    refuse_if(state_sealed::other_personality(sections.bytes, sealed), 29)?;
    let state = state_sealed::state_in(sealed);
    refuse_if(!state_valid::is_state_of(p, state), 13)
}

#[tactic(auto, using(rules::proofs::Checks::checks), unfolding(rules::specs::Call::bound_for, rules::specs::Call::handed_back, crate::specs::SealCall::resume_verdict, crate::specs::SealCall::resume_after))]
fn tried_resume(personality: &[u8], sealed: &[u8], state: &mut [u8]) -> Result<u32, Refusal>
    ensures answer { result ≡ bound_for (resume_verdict personality.now sealed.now state.old) 0 }
    ensures state { state.new ≡ resume_after personality.now sealed.now state.old }
{
    let p = accepted(personality)?;
    refuse_if(state.len() != TIMED_BYTES, 13)?;
    record_verdict(&p, sealed)?;
    state_forms::put_all(state, 0, state_sealed::state_in(sealed));
    Ok(0)
}

// Writes the state of a sealed record: the personality is checked first, then whether the buffer has the length of a state (13), then the
// record. A refused call leaves the buffer as it is.
#[tactic(auto, using(board_answers::proofs::Answers::packed_plain), unfolding(crate::specs::SealCall::resume_answer))]
pub fn resume(personality: &[u8], sealed: &[u8], state: &mut [u8]) -> u64
    ensures { (result ≡ resume_answer personality.now sealed.now state.old)
        × (state.new ≡ resume_after personality.now sealed.now state.old) }
{
    answer(tried_resume(personality, sealed, state))
}
