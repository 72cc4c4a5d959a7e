// The rule by which the table is made. Nothing here reads the table.
ghost use Rattle.std.specs.Prelude.{◌<◌, ◌≡◌};
ghost use Rattle.sheet_yellow.specs.Yellow.{answer_of, AnswerFor};
ghost use Rattle.sheet_yellow.specs.Columns.{entry_at};

use crate::{column_of, in_range};
use rules::answer::Refusal;

// The entry at a speed and a column: the greater of 30 and 10 + the fraction rounded up. 36 × (6,000 + 196 × grade) is
// 36 × (4,040 + 196 × column).
fn entry_at(speed: u32, column: usize) -> u8
    requires speed_bound { speed < 111 }
    requires column_bound { column < 21 }
    ensures { result ≡ entry_at speed column }
{
    let divisor = 36 * (4040 + 196 * (column as u32));
    let steps = 10 + (100000 * speed).div_ceil(divisor);
    steps.max(30) as u8
}

// The yellow time at a speed and a grade, computed. The generator of the table prints it.
pub fn by_rule(speed: u32, grade: i32) -> Result<u8, Refusal>
    ensures { (result ≡ answer_of speed grade) × AnswerFor speed grade result }
{
    if !in_range(speed, grade) {
        return Err(Refusal {
            number: 23,
            place: 0,
        });
    }
    Ok(entry_at(speed, column_of(grade)))
}
