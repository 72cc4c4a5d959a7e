// The answer of a call of the board interface is one number. Its lowest byte is the number of the refusal, 0 if the call is accepted. The
// bytes above it are the place, or the result of an accepted call.
#![tactic(auto)]

ghost use Rattle.std.specs.Prelude.{◌≤◌, ◌≡◌, IfErr};
ghost use Rattle.rules.specs.Laws.{greatest_length};
ghost use Rattle.board_answers.specs.Answers.{packed, packed_outcome};

use rules::answer::Refusal;

// The number in the lowest byte, and a place or a wait bound above it.
#[tactic(auto, unfolding(crate::specs::Answers::packed))]
pub fn packed(number: u8, value: u32) -> u64
    ensures { result ≡ packed number value }
{
    u64::from(number) + 256 * u64::from(value)
}

// A refusal. No place is above the length of the longest personality.
pub fn refusal(number: u8, place: usize) -> u64
    requires { place ≤ greatest_length }
    ensures { result ≡ packed number place }
{
    packed(number, place as u32)
}

// The result of a call that was accepted, or its refusal.
#[tactic(auto, unfolding(crate::specs::Answers::packed_outcome))]
pub fn answer(outcome: Result<u32, Refusal>) -> u64
    requires { IfErr outcome (λ refused. refused.place ≤ greatest_length) }
    ensures { result ≡ packed_outcome outcome }
{
    match outcome {
        Ok(value) => packed(0, value),
        Err(Refusal { number, place }) => refusal(number, place),
    }
}
