// The wait bound of a site in steps: start red plus the sum over the phases of L + M + X + 2 × (A + E + Y + R + C). For the movements of
// the phase, A is the largest sum W + C1 and C the largest C2; without movements both are 0. E is the time of early cut-off green. All
// times are inside the limits, so every sum here fits in two bytes.
#![tactic(auto)]

ghost use Rattle.std.specs.Prelude.{◌≤◌, ◌≡◌};
ghost use Rattle.rules.specs.WaitBound.{phase_share, wait_bound};

use rules::site::PhaseTimes;
use site_sound::SoundSite;
use wait_bound_movements::{Longest, longest_of};

// The share of a phase, with A and C of its movements.
#[tactic(auto, unfolding(rules::specs::WaitBound::phase_share))]
fn phase_share(times: PhaseTimes, longest: Longest) -> u16
    requires { phase_share times longest.walk longest.clearance ≤ 65535 }
    ensures { result ≡ phase_share times longest.walk longest.clearance }
{
    times.late
        + times.minimum
        + times.maximum
        + 2 * (longest.walk + times.early + times.yellow + times.red + longest.clearance)
}

// The wait bound of a site.
pub fn wait_bound(site: &SoundSite) -> u32
    ensures { result ≡ wait_bound site.now }
{
    let times = &site.site.times;
    let longest = longest_of(site.crossings(), &times.walks);
    let mut sum: u16 = times.start;
    for p in 0..usize::from(site.site.size.phases) {
        sum += phase_share(times.phases[p], longest[p]);
    }
    u32::from(sum)
}
