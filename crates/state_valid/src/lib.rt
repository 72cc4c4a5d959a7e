// Whether bytes are a valid state of an accepted personality. Every call that takes a state asks this crate.
#![tactic(auto)]

mod same;
mod settings;
mod zeros;

ghost use Rattle.std.specs.Prelude.{◌+◌, ◌≤◌, true, ◌≡◌, length};
ghost use Rattle.rules.specs.Site.{site_of};
ghost use Rattle.rules.specs.SiteTimes.{under, admitted};
ghost use Rattle.state_times.specs.TimesLayout.{times as times_form};
ghost use Rattle.state_timed.specs.TimedLayout.{is_timed, timed_decoded};
ghost use Rattle.state_valid.specs.StateOf.{is_state_of};
ghost use Rattle.state_valid.specs.TimesValid.{times_valid};

use read_layout::Personality;
use settings::Limited;
use site_rows::Fitted;
use site_sound::SoundSite;
use state_timed::{PRESENT, REST, RULING, WAITING};

// Whether the ruling times in the bytes of a state are times that the site may have, and the waiting ones too; if none wait, whether they are 0.
#[tactic(auto, using(crate::proofs::StateTimes::timed_size))]
pub fn times_valid(personality: &Personality, bytes: &[u8]) -> bool
    requires { is_timed bytes.now ≡ true }
    ensures { result ≡ times_valid personality.now (timed_decoded bytes.now) }
{
    let own = Limited::new(personality);
    settings::admitted(&own, bytes, RULING)
        && if bytes[PRESENT] == 0 {
            settings::blank(bytes, WAITING)
        } else {
            settings::admitted(&own, bytes, WAITING)
        }
}

// The site under times in the bytes of a state, which it may have. Then it is sound.
pub fn site_under(personality: &Personality, bytes: &[u8], at: usize) -> SoundSite
    requires { (at + times_form.width ≤ length bytes.now) × (admitted (site_of personality.now) (times_form.read bytes.now at) ≡ true) }
    ensures { result ≡ under (site_of personality.now) (times_form.read bytes.now at) }
{
    // the proof learns from this that the personality is accepted
    let _ = &personality.sections;
    let fitted = Fitted::of(personality);
    SoundSite {
        site: site_whole::site_in(&fitted, bytes, at),
    }
}

// Whether bytes are a valid state of a personality. A call that goes on with the site and the state makes the same tests itself.
pub fn is_state_of(personality: &Personality, bytes: &[u8]) -> bool
    ensures { result ≡ is_state_of personality.now bytes.now }
{
    if !state_timed::is_timed(bytes) || !times_valid(personality, bytes) {
        return false;
    }
    let site = site_under(personality, bytes, RULING);
    step_valid::kept_valid(&site, state_bytes::read(bytes, REST))
}
