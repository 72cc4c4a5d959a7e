// The edition of a personality, and the places of its sections.
#![tactic(auto)]

ghost use Rattle.std.specs.Prelude.{◌+◌, ◌≤◌, ◌≡◌, if◌then◌else◌};
ghost use Rattle.rules.specs.Personality.{site_kind, edition_of, body_length, past_section, has_head};
ghost use Rattle.read_layout.specs.LayoutOf.{LayoutOf};

use base_bytes::{byte_at, two_at, two_in};
use rules::site::Edition;
use std::marker::Model;

// The counts P and N, and the places of the heads of kinds 3 to 7 and 9. Kinds 7 and 9 are optional: `hasearly` and `hasorder` say if they
// are present, and `early` and `order` are the places that their heads would have. These are no Options: the next head and the lookup need the
// place of a section that is not present too. The site section is at 0, kind 2 at 8.
#[derive(Clone, Copy)]
pub struct Layout {
    pub phasecount: u8,
    pub groupcount: u8,
    pub groups: usize,
    pub conflicts: usize,
    pub detectors: usize,
    pub pedestrians: usize,
    pub early: usize,
    pub hasearly: bool,
    pub order: usize,
    pub hasorder: bool,
}

// A personality with the places of its sections. A contract sees its bytes.
#[derive(Drop)]
pub struct Sections<'a> {
    pub bytes: &'a [u8],
    pub layout: Layout,
}

impl<'a> Model for Sections<'a> {
    ghost use Rattle.std.specs.Prelude.{List, ℕ};
    ghost use Rattle.read_layout.specs.LayoutOf.{LayoutOf};

    ghost Value = { List ℕ };

    ghost view = { λ p. p.bytes.now };

    ghost invariant = { λ p. LayoutOf p.bytes.now p.layout };
}

// Sections of which the site's is accepted: the counts P and N are in their ranges. A contract sees the bytes.
#[derive(Drop)]
pub struct Counted<'a> {
    pub sections: Sections<'a>,
}

impl<'a> Model for Counted<'a> {
    ghost use Rattle.std.specs.Prelude.{List, ℕ, ◌≡◌};
    ghost use Rattle.rules.specs.Verdicts.{Accepted};
    ghost use Rattle.rules.specs.Personality.{site_section};

    ghost Value = { List ℕ };

    ghost view = { λ c. c.sections };

    ghost invariant = { λ c. site_section c.sections ≡ Accepted };
}

// A personality that is accepted, with the number of its pedestrian movements. A contract sees the bytes.
#[derive(Drop)]
pub struct Personality<'a> {
    pub sections: Sections<'a>,
    pub movements: usize,
}

impl<'a> Model for Personality<'a> {
    ghost use Rattle.std.specs.Prelude.{List, ℕ, ◌≡◌};
    ghost use Rattle.rules.specs.Verdicts.{Accepted};
    ghost use Rattle.rules.specs.Personality.{movement_count, verdict_of};

    ghost Value = { List ℕ };

    ghost view = { λ p. p.sections };

    ghost invariant = { λ p. (verdict_of p.sections ≡ Accepted) × (p.movements ≡ movement_count p.sections) };
}

// The body length in a head that may lie past the end. The common case comes first: both bytes are present.
#[tactic(auto, unfolding(rules::specs::Personality::body_length))]
fn body_length(s: &[u8], head: usize) -> usize
    requires { head ≤ 300000 }
    ensures { (result ≡ body_length s.now head) × (result ≤ 65535) }
{
    if head + 2 <= s.len() {
        usize::from(two_in(s, head))
    } else {
        usize::from(two_at(s, head))
    }
}

// Whether a whole head of this kind is at the place.
#[tactic(auto, unfolding(rules::specs::Personality::has_head, rules::specs::Personality::kind_at))]
fn has_head(s: &[u8], head: usize, kind: u16) -> bool
    requires { head ≤ 300000 }
    ensures { result ≡ has_head s.now head kind }
{
    head + 4 <= s.len() && two_in(s, head + 2) == kind
}

// The kind of the site section.
pub fn site_kind(edition: Edition) -> u16
    ensures { result ≡ site_kind edition }
{
    match edition {
        Edition::One => 1,
        Edition::Two => 8,
    }
}

// The edition that the first section names: two if it is of kind 8. It is no field of the layout: reading it again takes fewer instructions.
#[tactic(auto, unfolding(rules::specs::Personality::edition_of))]
pub fn edition_of(s: &[u8]) -> Edition
    ensures { result ≡ edition_of s.now }
{
    if has_head(s, 0, 8) {
        Edition::Two
    } else {
        Edition::One
    }
}

// The place after an optional section; if the section is not present, the place of its head.
#[tactic(auto, unfolding(rules::specs::Personality::past_section, rules::specs::Personality::body_at))]
pub fn past_section(s: &[u8], head: usize, there: bool) -> usize
    requires { head ≤ 300000 }
    ensures { (result ≡ (if there then past_section s.now head else head)) × (result ≤ head + 65539) }
{
    if there {
        head + 4 + body_length(s, head)
    } else {
        head
    }
}

// The layout that follows from the counts and the body lengths. The sections may be missing: a byte past the end reads as 0.
#[tactic(auto, unfolding(rules::specs::Personality::body_at, rules::specs::Personality::phase_count, rules::specs::Personality::group_count, rules::specs::Personality::groups_head, rules::specs::Personality::conflicts_head, rules::specs::Personality::detectors_head, rules::specs::Personality::pedestrians_head, rules::specs::Personality::early_head, rules::specs::Personality::has_early, rules::specs::Personality::order_head, rules::specs::Personality::has_order, rules::specs::Personality::past_section))]
pub fn layout_of(s: &[u8]) -> Layout
    ensures { LayoutOf s.now result }
{
    let p = byte_at(s, 4);
    let n = byte_at(s, 5);
    let groups = 12 + usize::from(p) * 12;
    let conflicts = groups + 4 + usize::from(n) * 2;
    let detectors = conflicts + 4 + usize::from(n) * 4;
    let pedestrians = detectors + 4 + body_length(s, detectors);
    let early = pedestrians + 4 + body_length(s, pedestrians);
    let hasearly = has_head(s, early, 7);
    let order = past_section(s, early, hasearly);
    Layout {
        phasecount: p,
        groupcount: n,
        groups,
        conflicts,
        detectors,
        pedestrians,
        early,
        hasearly,
        order,
        hasorder: has_head(s, order, 9),
    }
}

impl<'a> Sections<'a> {
    pub fn new(bytes: &'a [u8]) -> Self
        ensures { result ≡ bytes.now }
    {
        Sections {
            bytes,
            layout: layout_of(bytes),
        }
    }
}
