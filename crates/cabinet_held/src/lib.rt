// The calls of a cabinet on the personality that a record holds: what they check, and what they write to the outputs.
#![tactic(auto)]

ghost use Rattle.std.specs.Prelude.{min, ◌≤◌, ◌&&◌, ◌≡◌, length, IfErr};
ghost use Rattle.rules.specs.Laws.{greatest_length};
ghost use Rattle.rules.specs.Personality.{verdict_of};
ghost use Rattle.state_forms.specs.Forms.{two};
ghost use Rattle.board_answers.specs.Answers.{packed_verdict};
ghost use Rattle.cabinet_records.specs.Cabinet.{outputs_of, is_accepted, meet, past_last};
ghost use Rattle.cabinet_held.specs.Held.{held_checks, taking_checks, darkened, held_step};

pub mod fills;
pub mod placing;

use rules::answer::Refusal;

// The colour of a site's outputs as it begins, and of outputs without a site.
const RED: u8 = 0;

const DARK: u8 = 4;

// How many bytes of its room the personality of a record has, by the two bytes of its length. A length above the room counts as the room.
pub fn held_size(size: &[u8; 2]) -> usize
    ensures { result ≡ min (two.read size.now 0) greatest_length }
{
    usize::from(base_bytes::two_at(size, 0)).min(477)
}

// How many outputs a personality has.
#[tactic(auto, unfolding(cabinet_records::specs::Cabinet::outputs_of, rules::specs::Site::site_of, rules::specs::Personality::group_count))]
pub fn outputs_of(personality: &[u8]) -> u8
    ensures { result ≡ outputs_of personality.now }
{
    base_bytes::byte_at(personality, 5)
}

// Whether a personality would be accepted.
#[tactic(auto, unfolding(cabinet_records::specs::Cabinet::is_accepted))]
fn is_accepted(personality: &[u8]) -> bool
    ensures { result ≡ is_accepted (verdict_of personality.now) }
{
    read_personality::read(personality).is_ok()
}

// Whether outputs from `first` on go past the 32nd. The first output may be any number.
#[tactic(auto, unfolding(cabinet_records::specs::Cabinet::past_last))]
fn past_last(first: usize, count: u8) -> bool
    ensures { result ≡ past_last first count }
{
    first > 32 || first + usize::from(count) > 32
}

// Whether outputs from `first` on and outputs from `own` on have one in common. The second sum is made only if `first` is small.
#[tactic(auto, unfolding(cabinet_records::specs::Cabinet::meet))]
fn meet(first: usize, count: u8, own: u8, outputs: u8) -> bool
    ensures { result ≡ meet first count own outputs }
{
    first < usize::from(own) + usize::from(outputs) && usize::from(own) < first + usize::from(count)
}

// Whether a personality whose outputs begin at `own` would be accepted and has one of the `count` outputs from `first` on. The outputs are
// compared first, because most of them do not meet and then nothing has to be read.
pub fn meets(personality: &[u8], own: u8, first: usize, count: u8) -> bool
    ensures { result ≡ (is_accepted (verdict_of personality.now) && meet first count own (outputs_of personality.now)) }
{
    meet(first, count, own, outputs_of(personality)) && is_accepted(personality)
}

// The number and place of a refusal as one number, 0 if there is none.
#[tactic(auto, unfolding(board_answers::specs::Answers::packed, board_answers::specs::Answers::packed_verdict))]
fn packed_verdict(verdict: Result<(), Refusal>) -> u64
    requires { IfErr verdict (λ refused. refused.place ≤ greatest_length) }
    ensures { result ≡ packed_verdict verdict }
{
    match verdict {
        Ok(()) => 0,
        Err(Refusal { number, place }) => board_answers::refusal(number, place),
    }
}

// The checks of a held personality: its own, then 25.
#[tactic(auto, using(rules::proofs::Checks::checks), unfolding(crate::specs::Held::held_checks))]
fn held_checks(personality: &[u8], first: u8) -> Result<(), Refusal>
    ensures { result ≡ held_checks personality.now first }
{
    read_personality::read(personality)?;
    if past_last(usize::from(first), outputs_of(personality)) {
        return Err(Refusal {
            number: 25,
            place: 0,
        });
    }
    Ok(())
}

// The checks of taking out: those of a held personality, then 14.
#[tactic(auto, using(rules::proofs::Checks::checks), unfolding(crate::specs::Held::taking_checks))]
fn taking_checks(personality: &[u8], first: u8, room: usize) -> Result<(), Refusal>
    ensures { result ≡ taking_checks personality.now first room }
{
    held_checks(personality, first)?;
    if room < 32 {
        return Err(Refusal {
            number: 14,
            place: 0,
        });
    }
    Ok(())
}

// Turns the outputs of a held personality dark, if it may be taken out.
#[tactic(auto, using(rules::proofs::Checks::checks), unfolding(rules::specs::Call::handed_back, crate::specs::Held::turned))]
pub fn held_taking(personality: &[u8], first: u8, outputs: &mut [u8]) -> Result<(), Refusal>
    ensures { (result ≡ taking_checks personality.now first (length outputs.old))
        × (outputs.new ≡ darkened personality.now first outputs.old) }
{
    taking_checks(personality, first, outputs.len())?;
    let start = usize::from(first);
    let end = start + usize::from(outputs_of(personality));
    outputs[start..end].fill(DARK);
    Ok(())
}

// A step call on a held personality, lent its own outputs. A buffer under 32 bytes lends none, so that the step itself answers 13, 15 or 14.
// The personality is read once: if its outputs end in time, only the step reads it.
pub fn held_step(
    personality: &[u8],
    first: u8,
    state: &mut [u8],
    inputs: u64,
    outputs: &mut [u8],
) -> u64
    ensures { record { answer = result; state = state.new; outputs = outputs.new }
        ≡ held_step personality.now first state.old inputs outputs.old }
{
    let start = usize::from(first);
    let count = outputs_of(personality);
    if past_last(start, count) {
        return packed_verdict(held_checks(personality, first));
    }
    if outputs.len() < 32 {
        return board_step::step(personality, state, inputs, &mut outputs[..0]);
    }
    let end = start + usize::from(count);
    board_step::step(personality, state, inputs, &mut outputs[start..end])
}
