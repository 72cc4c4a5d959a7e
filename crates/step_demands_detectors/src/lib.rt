// One pass over the occupied detectors.
#![tactic(auto)]

ghost use Rattle.std.specs.Prelude.{◌≡◌, ℕ, ◌+◌, ◌*◌, ◌<◌, eqb, length};
ghost use Rattle.laws.specs.Bytes.{bit};
ghost use Rattle.rules.specs.Demands.{detected_among};
ghost use Rattle.step_demands_detectors.specs.Sensed.{Tabled, SensedBy};

use rules::site::Detector;

// What the occupied detectors ask for: the phases with a locked demand, the phases with a call in this step, and whether a detector extends
// the phase of the state.
#[derive(Clone, Copy)]
pub struct Sensed {
    pub locks: u8,
    pub calls: u8,
    pub extended: bool,
}

// The occupied detectors, as a table of modes and phases: bit 8 * m + p is set if one of phase p has mode m. Each turn takes the lowest input
// that is left.
fn table(detectors: &[Detector], inputs: u64) -> u64
    requires { Tabled detectors.now }
    ensures { (m p : ℕ) → p < 8 → bit (8 * m + p) result ≡ detected_among detectors.now (length detectors.now) (λ mode. eqb mode m) inputs p }
{
    let mut rest = inputs % (1u64 << detectors.len());
    let mut set = 0u64;
    while rest != 0 {
        let detector = detectors[rest.trailing_zeros() as usize];
        set |= 1u64 << (8 * detector.mode + detector.phase);
        rest &= rest - 1;
    }
    set
}

// The row of a mode in the table: the phases of the occupied detectors with that mode.
fn with_mode(set: u64, mode: u8) -> u8
    requires { mode < 8 }
    ensures { (p : ℕ) → p < 8 → bit p result ≡ bit (8 * mode + p) set }
{
    ((set >> (8 * mode)) % 256) as u8
}

// What the detectors ask for, by mode: 1 calls without lock, 2 calls with lock; plus 4 if it extends.
pub fn sense(detectors: &[Detector], inputs: u64, phase: u8) -> Sensed
    requires { Tabled detectors.now × (phase < 8) }
    ensures { SensedBy detectors.now inputs phase result }
{
    let set = table(detectors, inputs);
    let extending = with_mode(set, 4) | with_mode(set, 5) | with_mode(set, 6);
    Sensed {
        locks: with_mode(set, 2) | with_mode(set, 6),
        calls: with_mode(set, 1) | with_mode(set, 5),
        extended: base_bytes::bit8(phase, extending),
    }
}
