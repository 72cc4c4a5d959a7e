// The wait of each phase and of each movement, by the times of a site. No wait is more than the wait bound, so every sum here fits in two bytes.
#![tactic(auto)]

ghost use Rattle.std.specs.Prelude.{◌+◌, ◌<◌, true, ◌≡◌, get_or};
ghost use Rattle.rules.specs.Site.{crosses};
ghost use Rattle.rules.specs.Waits.{turn_of, rest_of, clears_first, own_of, phase_wait, movement_wait, phase_of_movement, waits_of};

use site_sound::SoundSite;
use step_demands_ring::next_after;
use wait_bound_movements::longest_of;
use wait_turns::{ending, green_of, leaving_of, turn_of};

// One turn of each phase but q. That q is a phase of the site stays a clause, here and below: it is a fact about two parameters, and a struct with
// both would be taken apart in each function.
fn rest_of(site: &SoundSite, q: u8) -> u32
    requires { q < site.now.size.phases }
    ensures { result ≡ rest_of site.now (turn_of site.now) q }
{
    let mut sum: u32 = 0;
    for p in 0..site.site.size.phases {
        if p != q {
            sum += turn_of(site, p);
        }
    }
    sum
}

// Start red, or a phase that is being left: the greater of V and its longest C2. The phase after q does not count.
fn clears_first(site: &SoundSite, q: u8) -> u32
    requires { q < site.now.size.phases }
    ensures { result ≡ clears_first site.now q }
{
    let next = next_after(255, q, site.ring());
    let longest = longest_of(site.crossings(), &site.site.times.walks);
    let mut most = u32::from(site.site.times.start);
    for r in 0..site.site.size.phases {
        if next != Some(r) {
            let i = usize::from(r);
            let second = u32::from(longest[i].clearance);
            most = most.max(leaving_of(site.site.times.phases[i]).max(second));
        }
    }
    most
}

// What is left of the turn of q for its movement m, or the clearance of m and then another walk of q.
fn own_of(site: &SoundSite, q: u8, m: u8) -> u32
    requires { (q < site.now.size.phases) × (m < site.now.size.movements) }
    ensures { result ≡ own_of site.now q m }
{
    let green = green_of(site.site.times.phases[usize::from(q)]);
    let own = site.site.times.walks[usize::from(m)];
    let clearance = u32::from(own.first) + u32::from(own.second);
    ending(site, q, Some(m), green, 0).max(ending(site, q, Some(m), clearance, clearance))
}

pub fn phase_wait(site: &SoundSite, q: u8) -> u32
    requires { q < site.now.size.phases }
    ensures { result ≡ phase_wait site.now q }
{
    let own = site.site.times.phases[usize::from(q)];
    u32::from(own.late) + clears_first(site, q) + rest_of(site, q)
}

// Of movement m of phase q.
pub fn movement_wait(site: &SoundSite, q: u8, m: u8) -> u32
    requires { (q < site.now.size.phases) × (m < site.now.size.movements) × (crosses site.now.crossings m q ≡ true) }
    ensures { result ≡ movement_wait site.now q m }
{
    // A use of the site's fields gives the proof their facts.
    let _ = &site.site;
    clears_first(site, q).max(own_of(site, q, m)) + rest_of(site, q)
}

// The phase of movement m.
fn phase_of_movement(site: &SoundSite, m: u8) -> u8
    requires { m < site.now.size.movements }
    ensures { result ≡ phase_of_movement site.now m }
{
    let set = site.site.crossings[usize::from(m)];
    let mut most: u8 = 0;
    for p in 0..site.site.size.phases {
        if base_bytes::bit8(p, set) {
            most = most.max(p);
        }
    }
    most
}

// The wait at place i of the row that a call writes: the phases come first, then the movements. The place stays a number, since the row is one list
// (`Waits.waits_of`).
pub fn wait_at(site: &SoundSite, i: u8) -> u16
    requires { i < site.now.size.phases + site.now.size.movements }
    ensures { result ≡ get_or (waits_of site.now) i 0 }
{
    if i < site.site.size.phases {
        phase_wait(site, i) as u16
    } else {
        let m = i - site.site.size.phases;
        let q = phase_of_movement(site, m);
        movement_wait(site, q, m) as u16
    }
}
