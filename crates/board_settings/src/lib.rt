// The settings of a site sheet, with the answer as one number. The detector is a number: 0 an advance detector, 1 a stop-line zone.
#![tactic(auto)]

ghost use Rattle.std.specs.Prelude.{◌≡◌};
ghost use Rattle.sheet_settings.specs.Sheet.{answer_of};
ghost use Rattle.board_settings.specs.SettingsCall.{packed_settings, settings_answer};

use board_answers::{packed, refusal};
use rules::answer::Refusal;
use sheet_settings::{Detector, Sheet, SheetSettings};

// The answer for a sheet: 0 in the lowest byte, then minimum green in 16 bits and the passage time in 16 bits; or the refusal.
fn packed_settings(sheet: Sheet) -> u64
    ensures { result ≡ packed_settings (answer_of sheet) }
{
    match sheet_settings::settings(sheet) {
        Ok(SheetSettings { minimum, passage }) => {
            packed(0, u32::from(minimum) + 65536 * u32::from(passage))
        }
        Err(Refusal { number, place }) => refusal(number, place),
    }
}

// Minimum green and passage time of an approach, or a refusal. A detector other than 0 and 1 is refused with 19.
pub fn settings(speed: u32, detector: u32, metres: f64) -> u64
    ensures { result ≡ settings_answer speed detector metres }
{
    let detector = match detector {
        0 => Detector::Advance(metres),
        1 => Detector::StopLine(metres),
        _ => return refusal(19, 0),
    };
    packed_settings(Sheet { speed, detector })
}
