// The tables of a site, decoded from the bytes of a personality: groups with the phase sets of the pedestrian ones, conflicts,
// detectors and the running order. Array entries past the section's own count are zero.
#![tactic(auto)]

ghost use Rattle.std.specs.Prelude.{◌<◌, ◌≡◌};
ghost use Rattle.rules.specs.Verdicts.{Accepted};
ghost use Rattle.rules.specs.Personality.{detector_count, phase_count, verdict_of};
ghost use Rattle.rules.specs.Site.{order_in, site_of};
ghost use Rattle.read_layout.specs.LayoutOf.{LayoutOf};
ghost use Rattle.site_rows.specs.Fitting.{Fitting, group_rows_in};

use base_bytes::{byte_in, four_in};
use read_layout::{Layout, Personality, Sections};
use read_sections::records::pair_at;
use rules::site::{Detector, Group};
use std::marker::Model;

// Bytes of a personality whose sections are all there and whose counts fit a site, with the number of its movements. A contract sees the bytes.
#[derive(Drop)]
pub struct Fitted<'a> {
    pub bytes: &'a [u8],
    pub layout: &'a Layout,
    pub movements: usize,
}

impl<'a> Model for Fitted<'a> {
    ghost use Rattle.std.specs.Prelude.{List, ℕ, ◌≡◌};
    ghost use Rattle.rules.specs.Personality.{movement_count};
    ghost use Rattle.site_rows.specs.Fitting.{Fitting};

    ghost Value = { List ℕ };

    ghost view = { λ f. f.bytes.now };

    ghost invariant = { λ f. Fitting f.bytes.now f.layout.now × (f.movements ≡ movement_count f.bytes.now) };
}

impl<'a> Fitted<'a> {
    // Bytes that fit a site: their movements are counted.
    pub fn new(bytes: &'a [u8], layout: &'a Layout) -> Self
        requires { Fitting bytes.now layout.now }
        ensures { result ≡ bytes.now }
    {
        Fitted {
            bytes,
            layout,
            movements: rows_of(bytes, layout).movements,
        }
    }

    // An accepted personality fits a site.
    pub fn of(p: &'a Personality<'a>) -> Self
        ensures { result ≡ p.now }
    {
        let sections = &p.sections;
        Fitted {
            bytes: sections.bytes,
            layout: &sections.layout,
            movements: p.movements,
        }
    }
}

// An accepted personality and the places of its sections: its movements are counted.
pub fn personality_of<'a>(bytes: &'a [u8], layout: Layout) -> Personality<'a>
    requires { (verdict_of bytes.now ≡ Accepted) × LayoutOf bytes.now layout }
    ensures { result ≡ bytes.now }
{
    let movements = rows_of(bytes, &layout).movements;
    Personality {
        sections: Sections { bytes, layout },
        movements,
    }
}

// ---- Groups, with their movements ----

// The groups, and of the pedestrian ones, each with a movement: how many there are, and their phase sets in group order.
#[derive(Clone, Copy)]
pub struct GroupRows {
    pub groups: [Group; 32],
    pub movements: usize,
    pub crossings: [u8; 8],
}

fn rows_of(bytes: &[u8], layout: &Layout) -> GroupRows
    requires { Fitting bytes.now layout.now }
    ensures { result ≡ group_rows_in bytes.now }
{
    let blank = Group { phases: 0, mark: 0 };
    let mut groups = [blank; 32];
    let mut movements = 0;
    let mut crossings = [0; 8];
    for g in 0..usize::from(layout.groupcount) {
        let group = pair_at(bytes, layout.groups, g);
        groups[g] = Group {
            phases: group.first,
            mark: group.second,
        };
        if group.second == 2 {
            crossings[movements] = group.first;
            movements += 1;
        }
    }
    GroupRows {
        groups,
        movements,
        crossings,
    }
}

pub fn group_rows_in(f: &Fitted) -> GroupRows
    ensures { result ≡ group_rows_in f.now }
{
    rows_of(f.bytes, f.layout)
}

// ---- Conflicts, detectors ----

pub fn conflicts(f: &Fitted) -> [u32; 32]
    ensures { result ≡ (site_of f.now).conflicts }
{
    let mut rows = [0; 32];
    for g in 0..usize::from(f.layout.groupcount) {
        rows[g] = four_in(f.bytes, f.layout.conflicts + 4 + g * 4);
    }
    rows
}

pub fn detectors(f: &Fitted, count: usize) -> [Detector; 48]
    requires { count ≡ detector_count f.now }
    ensures { result ≡ (site_of f.now).detectors }
{
    let mut rows = [Detector { phase: 0, mode: 0 }; 48];
    for d in 0..count {
        let detector = pair_at(f.bytes, f.layout.detectors, d);
        rows[d] = Detector {
            phase: detector.first,
            mode: detector.second,
        };
    }
    rows
}

// ---- The running order ----

// The i-th phase of the running order: entry i of kind 9, or phase i if kind 9 is not present.
#[tactic(auto, unfolding(rules::specs::Site::order_in, rules::specs::Personality::order_at, rules::specs::Personality::record_at, rules::specs::Personality::body_at))]
fn order_in(f: &Fitted, i: u8) -> u8
    requires { i < phase_count f.now }
    ensures { result ≡ order_in f.now i }
{
    if f.layout.hasorder {
        byte_in(f.bytes, f.layout.order + 4 + usize::from(i))
    } else {
        i
    }
}

pub fn order(f: &Fitted) -> [u8; 7]
    ensures { result ≡ (site_of f.now).order }
{
    let mut phases = [0; 7];
    for i in 0..f.layout.phasecount {
        phases[usize::from(i)] = order_in(f, i);
    }
    phases
}
