// Kind 5: the detectors, each with its phase and its mode.
#![tactic(auto)]

ghost use Rattle.std.specs.Prelude.{◌+◌, ◌*◌, ◌≤◌, true, false, ◌≡◌, length};
ghost use Rattle.rules.specs.Verdicts.{Accepted, first_of};
ghost use Rattle.rules.specs.Personality.{body_at, phase_count, detectors_head, detector_count, bad_detector, bad_detector_at, detector_record};
ghost use Rattle.rules.specs.Personality.{detectors_section};

use base_bytes::eight_in;
use read_layout::Counted;
use read_sections::records::pair_at;
use read_sections::section_at;
use rules::answer::Refusal;

// Whether the phase is at or above P, or the mode is not known.
#[tactic(auto, unfolding(rules::specs::Personality::bad_detector, rules::specs::Personality::known_mode))]
fn bad_detector(phases: u8, phase: u8, mode: u8) -> bool
    ensures { result ≡ bad_detector phases phase mode }
{
    phases <= phase || !matches!(mode, 0..=2 | 4..=6)
}

// Whether the four records from d on are good, by one test. A phase at or above P reaches 0x80 if 0x80 - P is added. An unknown mode, with
// the bit of 4 cleared, reaches 0x80 if 0x7d is added. Both sums start below 0x80, so no byte carries into the next. If the test fails, the
// records are tested one by one, so a false alarm only costs time. It takes the bytes themselves and no `Sections`: the proof needs that each
// byte is below 256, which a slice's type says and the model's value does not.
#[tactic(auto, unfolding(rules::specs::Personality::body_at))]
fn four_good(s: &[u8], phases: u8, head: usize, d: usize) -> bool
    requires { (phases ≡ phase_count s.now) × (head ≡ detectors_head s.now) × (phases ≤ 7) × (d ≤ 40000)
        × (body_at head + (d + 4) * 2 ≤ length s.now) }
    ensures { result ≡ true →
        (bad_detector_at s.now d ≡ false) × (bad_detector_at s.now (d + 1) ≡ false)
        × (bad_detector_at s.now (d + 2) ≡ false) × (bad_detector_at s.now (d + 3) ≡ false) }
{
    let records = eight_in(s, head + 4 + d * 2);
    let limits = 0x0001000100010001 * (0x7d80 - u64::from(phases));
    let raised = (records & 0x7b7f7b7f7b7f7b7f) + limits;
    (records & 0x8080808080808080 == 0) & (raised & 0x8080808080808080 == 0)
}

// How many of the first records pass the test, four by four.
fn good_fours(c: &Counted, count: usize) -> usize
    requires { (count ≤ 40000) × (body_at (detectors_head c.now) + count * 2 ≤ length c.now) }
    ensures { (result ≤ count) × (first_of (detector_record c.now) result ≡ Accepted) }
{
    let s = &c.sections;
    for i in 0..count / 4 {
        if !four_good(s.bytes, s.layout.phasecount, s.layout.detectors, i * 4) {
            return i * 4;
        }
    }
    count / 4 * 4
}

// 11: refuses at the first bad detector record. All records are in the slice.
#[tactic(auto, using(rules::proofs::Checks::checks), unfolding(rules::specs::Personality::detector_record, rules::specs::Personality::bad_detector_at, rules::specs::Personality::detector_phase, rules::specs::Personality::detector_mode, rules::specs::Personality::record_at, rules::specs::Personality::body_at))]
fn detector_records(c: &Counted, count: usize) -> Result<(), Refusal>
    requires { (count ≡ detector_count c.now) × (count ≤ 40000)
        × (body_at (detectors_head c.now) + count * 2 ≤ length c.now) }
    ensures { result ≡ first_of (detector_record c.now) (detector_count c.now) }
{
    let s = &c.sections;
    for d in good_fours(c, count)..count {
        let detector = pair_at(s.bytes, s.layout.detectors, d);
        if bad_detector(s.layout.phasecount, detector.first, detector.second) {
            return Err(Refusal {
                number: 11,
                place: s.layout.detectors + 4 + d * 2,
            });
        }
    }
    Ok(())
}

// The checks of kind 5. The body reaches to the next head; its length must be even and at most 96.
#[tactic(auto, unfolding(rules::specs::Personality::pedestrians_head, rules::specs::Personality::body_at))]
pub fn detectors_section(c: &Counted) -> Result<(), Refusal>
    ensures { result ≡ detectors_section c.now }
{
    let s = &c.sections;
    let length = s.layout.pedestrians - s.layout.detectors - 4;
    section_at(
        s.bytes,
        s.layout.detectors,
        5,
        length % 2 == 0 && length <= 96,
    )?;
    detector_records(c, length / 2)
}
