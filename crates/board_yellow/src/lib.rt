// The yellow time by speed and grade, with the answer as one number.
#![tactic(auto)]

ghost use Rattle.std.specs.Prelude.{◌≡◌};
ghost use Rattle.board_yellow.specs.YellowCall.{yellow_answer};

use board_answers::{packed, refusal};
use rules::answer::Refusal;

// The yellow time in steps, or a refusal.
pub fn yellow(speed: u32, grade: i32) -> u64
    ensures { result ≡ yellow_answer speed grade }
{
    match sheet_yellow::yellow(speed, grade) {
        Ok(steps) => packed(0, u32::from(steps)),
        Err(Refusal { number, place }) => refusal(number, place),
    }
}
