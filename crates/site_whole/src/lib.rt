// The site, decoded from the bytes of a personality. Each section is read once. The times are the personality's own, or stand in the bytes of a
// state; all else is read by one function.
#![tactic(auto)]

ghost use Rattle.std.specs.Prelude.{◌+◌, ◌≤◌, ◌≡◌, length};
ghost use Rattle.rules.specs.Personality.{phase_count, movement_count, has_early};
ghost use Rattle.rules.specs.Site.{site_of, times_in};
ghost use Rattle.rules.specs.SiteTimes.{under};
ghost use Rattle.site_rows.specs.Fitting.{group_rows_in};
ghost use Rattle.state_times.specs.TimesLayout.{times as times_form};
ghost use Rattle.state_times.specs.TimeRows.{site_times};

use base_bytes::two_in;
use read_layout::{Personality, edition_of};
use rules::site::{PhaseTimes, Site, Size, Times, WalkTimes};
use site_rows::{Fitted, GroupRows, conflicts, detectors, group_rows_in, order};
use site_sound::SoundSite;
use state_times::{EARLIES, PHASES, WALKS, phases, walks};

// The counts. Kind 5 has records of two bytes, and its body reaches to the next head.
#[tactic(auto, unfolding(rules::specs::Site::site_of, rules::specs::Personality::detector_count, rules::specs::Personality::pedestrians_head, rules::specs::Personality::body_at))]
pub fn size(f: &Fitted) -> Size
    ensures { result ≡ (site_of f.now).size }
{
    Size {
        phases: f.layout.phasecount,
        groups: f.layout.groupcount,
        detectors: ((f.layout.pedestrians - f.layout.detectors - 4) / 2) as u8,
        movements: f.movements as u8,
    }
}

// ---- The times ----

// Each part of the personality's own times has its function: one for all would not be inlined, and a call that decodes the site would need more
// stack.

// The times of the phases: their records in kind 2, and in kind 7, if it is present, their times of early cut-off green.
fn phase_times(f: &Fitted) -> [PhaseTimes; 7]
    ensures { result ≡ (times_in f.now).phases }
{
    phases::read(
        f.bytes,
        12,
        f.layout.early + 4,
        f.layout.hasearly,
        usize::from(f.layout.phasecount),
    )
}

// The times of the movements, in kind 6.
fn walk_times(f: &Fitted) -> [WalkTimes; 8]
    ensures { result ≡ (times_in f.now).walks }
{
    walks::read(f.bytes, f.layout.pedestrians + 4, f.movements)
}

// The times in the bytes of times from a place on. Only the times that the site has are read, so a site with few phases is decoded quickly.
fn site_times(f: &Fitted, bytes: &[u8], at: usize) -> Times
    requires { at + times_form.width ≤ length bytes.now }
    ensures { result ≡ site_times (phase_count f.now) (movement_count f.now) (has_early f.now) bytes.now at }
{
    Times {
        start: two_in(bytes, at),
        phases: phases::read(
            bytes,
            at + PHASES,
            at + EARLIES,
            f.layout.hasearly,
            usize::from(f.layout.phasecount),
        ),
        walks: walks::read(bytes, at + WALKS, f.movements),
    }
}

// ---- The site ----

// The site with these times.
#[tactic(auto, unfolding(rules::specs::Site::site_of, site_rows::specs::Fitting::group_rows_in))]
fn decoded(f: &Fitted, times: Times) -> Site
    ensures { result ≡ under (site_of f.now) times }
{
    let GroupRows {
        groups,
        crossings,
        ..
    } = group_rows_in(f);
    let size = size(f);
    Site {
        size,
        groups,
        conflicts: conflicts(f),
        detectors: detectors(f, usize::from(size.detectors)),
        crossings,
        edition: edition_of(f.bytes),
        early: f.layout.hasearly,
        order: order(f),
        times,
    }
}

// The personality's own times.
#[tactic(auto, unfolding(rules::specs::Site::times_in))]
pub fn own_times(f: &Fitted) -> Times
    ensures { result ≡ times_in f.now }
{
    Times {
        start: two_in(f.bytes, 6),
        phases: phase_times(f),
        walks: walk_times(f),
    }
}

// The site with its own times.
#[tactic(auto, unfolding(rules::specs::Site::site_of))]
pub fn site_of(f: &Fitted) -> Site
    ensures { result ≡ site_of f.now }
{
    decoded(f, own_times(f))
}

// The site with the times in the bytes of times from a place on.
pub fn site_in(f: &Fitted, bytes: &[u8], at: usize) -> Site
    requires { at + times_form.width ≤ length bytes.now }
    ensures { result ≡ under (site_of f.now)
        (site_times (phase_count f.now) (movement_count f.now) (has_early f.now) bytes.now at) }
{
    decoded(f, site_times(f, bytes, at))
}

// The site of an accepted personality with its own times. It is sound.
pub fn sound_site_of(p: &Personality) -> SoundSite
    ensures { result ≡ site_of p.now }
{
    // the proof learns from this that the personality is accepted
    let _ = &p.sections;
    SoundSite {
        site: site_of(&Fitted::of(p)),
    }
}
