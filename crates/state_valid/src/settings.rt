// The tests of the times in the bytes of a state: each setting that the site has is in the table, and each that it does not have is 0. The
// times are not decoded for them. A record that is the personality's own is not held to the table: the personality is accepted. The bytes and
// the place of the times in them are two parameters: each clause speaks of records at their own places, so a struct would be taken apart in each.
ghost use Rattle.std.specs.Prelude.{◌+◌, ◌≤◌, ◌<◌, true, ◌≡◌, length};
ghost use Rattle.rules.specs.declared.site.Site.{Site};
ghost use Rattle.laws.specs.Folds.{all_of};
ghost use Rattle.rules.specs.Limits.{limits};
ghost use Rattle.rules.specs.Personality.{phase_count, movement_count, has_early, edition_of};
ghost use Rattle.rules.specs.Site.{phase_times_at, site_of};
ghost use Rattle.rules.specs.SiteTimes.{record_limits, phase_within, walk_within, admitted, blank};
ghost use Rattle.state_times.specs.TimesLayout.{six, phase_of, times as times_form};
ghost use Rattle.state_times.specs.TimeRows.{phases_at, walks_at, earlies_at, phase_in, walk_in};

use crate::{same, zeros};
use base_bytes::two_in;
use base_limits::{limits, within};
use read_layout::{Personality, edition_of};
use rules::site::{PhaseTimes, Range, WalkTimes};
use state_times::{EARLIES, EARLY, PHASE, PHASES, TIMES_BYTES, WALK, WALKS, phases, walks};
use std::marker::Model;

// An accepted personality with the table of limits of its edition, which the times of a state are held to. A contract sees the bytes of the
// personality.
#[derive(Drop)]
pub struct Limited<'a> {
    personality: &'a Personality<'a>,
    table: [Range; 11],
}

impl<'a> Model for Limited<'a> {
    ghost use Rattle.std.specs.Prelude.{List, ℕ, ◌≡◌};
    ghost use Rattle.rules.specs.Limits.{limits};
    ghost use Rattle.rules.specs.Personality.{edition_of};

    ghost Value = { List ℕ };

    ghost view = { λ l. l.personality.now };

    ghost invariant = { λ l. l.table ≡ limits (edition_of l.personality.now) };
}

impl<'a> Limited<'a> {
    pub fn new(personality: &'a Personality<'a>) -> Self
        ensures { result ≡ personality.now }
    {
        let sections = &personality.sections;
        Limited {
            personality,
            table: limits(edition_of(sections.bytes)),
        }
    }
}

// The settings of a phase of the site, by their numbers in the table; `early` says if it has a section of kind 7.
fn phase_within(table: [Range; 11], early: bool, times: PhaseTimes) -> bool
    ensures { result ≡ phase_within table early times }
{
    within(table, 1, times.late)
        & within(table, 2, times.minimum)
        & within(table, 3, times.maximum)
        & within(table, 4, times.gap)
        & within(table, 5, times.yellow)
        & within(table, 6, times.red)
        & within(table, 10, times.early)
        & (early | (times.early == 0))
}

// The settings of a movement of the site.
fn walk_within(table: [Range; 11], times: WalkTimes) -> bool
    ensures { result ≡ walk_within table times }
{
    within(table, 7, times.walk) & within(table, 8, times.first) & within(table, 9, times.second)
}

// Whether these times of phase p, which the site has, are the personality's own: a record at a place, and a kind 7 time.
fn is_own_phase(personality: &Personality, p: usize, bytes: &[u8], place: usize, early: u16) -> bool
    requires { (p < phase_count personality.now) × (place + six.width ≤ length bytes.now) }
    ensures { result ≡ true → phase_times_at personality.now p ≡ phase_of (six.read bytes.now place) early }
{
    let sections = &personality.sections;
    let layout = &sections.layout;
    same::phase(sections.bytes, 12 + p * PHASE, bytes, place)
        && early == phases::early_in(sections.bytes, layout.early + 4, layout.hasearly, p)
}

// Whether these settings of phase p, which the site has, are in the table: a record at a place, and a kind 7 time.
fn own_phase_admitted(own: &Limited, p: usize, bytes: &[u8], place: usize, early: u16) -> bool
    requires { (p < phase_count own.now) × (place + six.width ≤ length bytes.now) }
    ensures { result ≡ phase_within (limits (edition_of own.now)) (has_early own.now) (phase_of (six.read bytes.now place) early) }
{
    let personality = own.personality;
    let sections = &personality.sections;
    is_own_phase(personality, p, bytes, place, early)
        || phase_within(
            own.table,
            sections.layout.hasearly,
            phases::read_one(bytes, place, early),
        )
}

// The same of the times of any phase: of one that the site does not have each setting is 0.
fn phase_admitted(own: &Limited, bytes: &[u8], at: usize, p: usize) -> bool
    requires { (p < 7) × (at + times_form.width ≤ length bytes.now) }
    ensures { result ≡ phase_within (record_limits (limits (edition_of own.now)) (phase_count own.now) p) (has_early own.now)
        (phase_in bytes.now (at + phases_at) (at + earlies_at) true p) }
{
    let personality = own.personality;
    let sections = &personality.sections;
    let place = at + PHASES + p * PHASE;
    let early = two_in(bytes, at + EARLIES + p * EARLY);
    if p < usize::from(sections.layout.phasecount) {
        own_phase_admitted(own, p, bytes, place, early)
    } else {
        zeros::phase(bytes, place, early)
    }
}

fn phases_admitted(own: &Limited, bytes: &[u8], at: usize) -> bool
    requires { at + times_form.width ≤ length bytes.now }
    ensures { result ≡ all_of (λ p. phase_within (record_limits (limits (edition_of own.now)) (phase_count own.now) p) (has_early own.now)
        (phase_in bytes.now (at + phases_at) (at + earlies_at) true p)) 7 }
{
    (0..7).all(|p| phase_admitted(own, bytes, at, p))
}

// The same of movement k.
fn walk_admitted(own: &Limited, bytes: &[u8], at: usize, k: usize) -> bool
    requires { (k < 8) × (at + times_form.width ≤ length bytes.now) }
    ensures { result ≡ walk_within (record_limits (limits (edition_of own.now)) (movement_count own.now) k) (walk_in bytes.now (at + walks_at) k) }
{
    let personality = own.personality;
    let sections = &personality.sections;
    let place = at + WALKS + k * WALK;
    if k < personality.movements {
        same::walk(
            sections.bytes,
            sections.layout.pedestrians + 4 + k * WALK,
            bytes,
            place,
        ) || walk_within(own.table, walks::read_one(bytes, place))
    } else {
        zeros::walk(bytes, place)
    }
}

fn walks_admitted(own: &Limited, bytes: &[u8], at: usize) -> bool
    requires { at + times_form.width ≤ length bytes.now }
    ensures { result ≡ all_of (λ k. walk_within (record_limits (limits (edition_of own.now)) (movement_count own.now) k)
        (walk_in bytes.now (at + walks_at) k)) 8 }
{
    (0..8).all(|k| walk_admitted(own, bytes, at, k))
}

// Whether the site of an accepted personality may have the times in these bytes.
pub fn admitted(own: &Limited, bytes: &[u8], at: usize) -> bool
    requires { at + times_form.width ≤ length bytes.now }
    ensures { result ≡ admitted (site_of own.now) (times_form.read bytes.now at) }
{
    within(own.table, 0, two_in(bytes, at))
        & phases_admitted(own, bytes, at)
        & walks_admitted(own, bytes, at)
}

// Whether every time in these bytes is 0. This does not depend on the site.
pub fn blank(bytes: &[u8], at: usize) -> bool
    requires { at + times_form.width ≤ length bytes.now }
    ensures { (site : Site) → result ≡ blank site (times_form.read bytes.now at) }
{
    zeros::all(bytes, at, TIMES_BYTES / 4)
}
