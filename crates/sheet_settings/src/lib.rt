// Minimum green and passage time from a site sheet, after source document 002: start loss 4 s, headway 2 s, 6 m for each vehicle. Times are
// in steps of 0.1 s, distances in metres, speeds in km/h.
#![tactic(auto)]

ghost use Rattle.std.specs.Prelude.{true, ◌≡◌};
ghost use Rattle.sheet_settings.specs.Sheet.{metres_of, speed_in_range, metres_in_range, in_range, minimum_green, passage_over, passage_time, answer_from, answer_of, AnswerFor};

use base_limits::limits;
use rules::answer::Refusal;
use rules::site::Edition;

// The detector of an approach: at a distance before the stop line, or a zone of some length at the stop line. The number is in metres.
#[derive(Clone, Copy)]
pub enum Detector {
    Advance(f64),
    StopLine(f64),
}

#[derive(Clone, Copy)]
pub struct Sheet {
    pub speed: u32,
    pub detector: Detector,
}

// Minimum green and passage time.
#[derive(Clone, Copy)]
pub struct SheetSettings {
    pub minimum: u16,
    pub passage: u16,
}

// The places of M and G in a table of limits.
const MINIMUM: usize = 2;

const GAP: usize = 4;

fn metres_of(detector: Detector) -> f64
    ensures { result ≡ metres_of detector }
{
    match detector {
        Detector::Advance(metres) | Detector::StopLine(metres) => metres,
    }
}

// Whether the speed is from 20 to 110.
fn speed_in_range(speed: u32) -> bool
    ensures { result ≡ speed_in_range speed }
{
    20 <= speed && speed <= 110
}

// Whether the metres are from 0 to 300. A NaN is out of range.
fn metres_in_range(metres: f64) -> bool
    ensures { result ≡ metres_in_range metres }
{
    0.0 <= metres && metres <= 300.0
}

#[tactic(auto, unfolding(crate::specs::Sheet::in_range))]
fn in_range(sheet: Sheet) -> bool
    ensures { result ≡ in_range sheet }
{
    speed_in_range(sheet.speed) && metres_in_range(metres_of(sheet.detector))
}

// Minimum green: 40 + 20 n steps. n is the number of whole vehicles of 6 m in the metres: 6 n ≤ metres < 6 (n + 1). Both tests of floats are `<=`:
// another one would need another function of the C library on small processors.
fn minimum_green(metres: f64) -> u16
    requires { metres_in_range metres ≡ true }
    ensures { result ≡ minimum_green metres }
{
    let n = (0..50)
        .find(|n| !(f64::from(6 * (n + 1)) <= metres))
        .unwrap_or(50);
    40 + 20 * n
}

// Passage time of an advance detector: the lowest whole t with t × speed ≥ q. q is 36 × metres, rounded once to binary64.
fn passage_over(speed: u32, metres: f64) -> u16
    requires { (speed_in_range speed ≡ true) × (metres_in_range metres ≡ true) }
    ensures { result ≡ passage_over speed metres }
{
    let product = metres * 36.0;
    let t = (0..540)
        .find(|t| product <= f64::from(t * speed))
        .unwrap_or(540);
    t as u16
}

// The passage time of a detector; 0 for a stop-line zone.
fn passage_time(speed: u32, detector: Detector) -> u16
    requires { (speed_in_range speed ≡ true) × (metres_in_range (metres_of detector) ≡ true) }
    ensures { result ≡ passage_time speed detector }
{
    match detector {
        Detector::Advance(metres) => passage_over(speed, metres),
        Detector::StopLine(_) => 0,
    }
}

// The settings, or 20 if one is above the limit of M or G. These limits are the same in both editions.
fn answer_from(minimum: u16, passage: u16) -> Result<SheetSettings, Refusal>
    ensures { result ≡ answer_from minimum passage }
{
    let limits = limits(Edition::One);
    if minimum <= limits[MINIMUM].high && passage <= limits[GAP].high {
        Ok(SheetSettings { minimum, passage })
    } else {
        Err(Refusal {
            number: 20,
            place: 0,
        })
    }
}

// The settings of a sheet, or the number and place of its refusal.
pub fn settings(sheet: Sheet) -> Result<SheetSettings, Refusal>
    ensures { (result ≡ answer_of sheet) × AnswerFor sheet result }
{
    if !in_range(sheet) {
        return Err(Refusal {
            number: 19,
            place: 0,
        });
    }
    answer_from(
        minimum_green(metres_of(sheet.detector)),
        passage_time(sheet.speed, sheet.detector),
    )
}
