// Placing a personality: its checks, its outputs and its fresh state.
ghost use Rattle.std.specs.Prelude.{not, ◌≡◌, ltb, length, Err, IfErr, IfOk};
ghost use Rattle.rules.specs.Verdicts.{Accepted, Refused};
ghost use Rattle.rules.specs.Call.{bound_for};
ghost use Rattle.rules.specs.Personality.{verdict_of};
ghost use Rattle.rules.specs.Site.{site_of};
ghost use Rattle.rules.specs.Timed.{fresh_timed};
ghost use Rattle.rules.specs.Verdicts.{verdict, ◌or_else◌, refuse_if};
ghost use Rattle.read_layout.specs.LayoutOf.{LayoutOf};
ghost use Rattle.state_timed.specs.TimedLayout.{timed_encoded_over};
ghost use Rattle.board_answers.specs.Answers.{packed_verdict};
ghost use Rattle.cabinet_held.specs.Held.{placing_checks, reddened};

use crate::{RED, outputs_of, past_last};
use board_answers::answer;
use read_layout::{Layout, Personality, layout_of};
use read_personality::accepted;
use rules::answer::Refusal;

// The checks after the personality's own: 24, 25 and 14.
#[tactic(auto, using(rules::proofs::Checks::checks))]
fn checks(free: bool, taken: bool, room: usize) -> Result<(), Refusal>
    ensures { result ≡ (refuse_if (not free) 24 0 or_else refuse_if taken 25 0 or_else refuse_if (ltb room 32) 14 0) }
{
    if !free {
        return Err(Refusal {
            number: 24,
            place: 0,
        });
    }
    if taken {
        return Err(Refusal {
            number: 25,
            place: 0,
        });
    }
    if room < 32 {
        return Err(Refusal {
            number: 14,
            place: 0,
        });
    }
    Ok(())
}

// Turns the outputs of a personality red, if it may be placed.
#[tactic(auto, using(rules::proofs::Checks::checks), unfolding(rules::specs::Call::handed_back, crate::specs::Held::placing_checks, crate::specs::Held::turned))]
fn reddened<'a>(
    personality: &'a [u8],
    free: bool,
    met: bool,
    first: usize,
    outputs: &mut [u8],
) -> Result<Personality<'a>, Refusal>
    ensures { (verdict result ≡ placing_checks personality.now free met first (length outputs.old))
        × IfOk result (λ p. p ≡ personality.now)
        × (outputs.new ≡ reddened personality.now free met first outputs.old) }
{
    let p = accepted(personality)?;
    let count = outputs_of(personality);
    checks(free, past_last(first, count) || met, outputs.len())?;
    outputs[first..first + usize::from(count)].fill(RED);
    Ok(p)
}

// Why a personality is not placed, and the places of its sections.
#[derive(Clone, Copy)]
pub struct Unplaced {
    pub refusal: Refusal,
    pub layout: Layout,
}

// Turns the outputs of a personality red, if it may be placed. `met` says whether another record has one of them. The accepted personality
// is for the fresh state, so that it is read once.
#[tactic(auto, using(rules::proofs::Checks::checks))]
pub fn held_placing<'a>(
    personality: &'a [u8],
    free: bool,
    met: bool,
    first: usize,
    outputs: &mut [u8],
) -> Result<Personality<'a>, Unplaced>
    ensures placed { IfOk result (λ p. (placing_checks personality.now free met first (length outputs.old) ≡ Accepted) × (p ≡ personality.now)) }
    ensures unplaced { IfErr result (λ u. (placing_checks personality.now free met first (length outputs.old) ≡ Err u.refusal)
        × LayoutOf personality.now u.layout) }
    ensures outputs { outputs.new ≡ reddened personality.now free met first outputs.old }
{
    match reddened(personality, free, met, first, outputs) {
        Ok(p) => Ok(p),
        Err(refusal) => Err(Unplaced {
            refusal,
            layout: layout_of(personality),
        }),
    }
}

#[tactic(auto, using(rules::proofs::Checks::checks), unfolding(rules::specs::Call::bound_for))]
fn nowhere(personality: &[u8]) -> Result<u32, Refusal>
    ensures { result ≡ bound_for (verdict_of personality.now or_else Refused 24 0) 0 }
{
    read_personality::read(personality)?;
    Err(Refusal {
        number: 24,
        place: 0,
    })
}

// The answer of placing where no record is free: the personality's own refusal, then 24.
#[tactic(auto, using(board_answers::proofs::Answers::packed_plain))]
pub fn placed_nowhere(personality: &[u8]) -> u64
    ensures { result ≡ packed_verdict (verdict_of personality.now or_else Refused 24 0) }
{
    answer(nowhere(personality))
}

// Writes the fresh state of an accepted personality.
pub fn fresh_state(p: &Personality, state: &mut [u8])
    ensures { state.new ≡ timed_encoded_over (fresh_timed (site_of p.now)) state.old }
{
    if state.len() == state_timed::TIMED_BYTES {
        state_fresh::put_fresh(p, state);
    }
}
