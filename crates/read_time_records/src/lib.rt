// Records of two-byte times. Each field is checked with the table of limits of the personality's edition.
#![tactic(auto)]

ghost use Rattle.std.specs.Prelude.{◌+◌, ◌*◌, ◌≤◌, ◌≡◌, length};
ghost use Rattle.rules.specs.Personality.{time_at, times_at, time_records, timed_section};

use base_bytes::two_in;
use base_limits::{limits, within};
use read_layout::edition_of;
use read_sections::sized_section;
use rules::answer::Refusal;
use rules::site::Range;
use std::marker::Model;

// A personality with the table of limits of its edition. It is made once for a section: that takes fewer instructions than choosing the
// table for each time. A contract sees the bytes.
#[derive(Drop)]
pub struct WithLimits<'a> {
    bytes: &'a [u8],
    table: [Range; 11],
}

impl<'a> Model for WithLimits<'a> {
    ghost use Rattle.std.specs.Prelude.{List, ℕ, ◌≡◌};
    ghost use Rattle.rules.specs.Limits.{limits};
    ghost use Rattle.rules.specs.Personality.{edition_of};

    ghost Value = { List ℕ };

    ghost view = { λ p. p.bytes.now };

    ghost invariant = { λ p. p.table ≡ limits (edition_of p.bytes.now) };
}

impl<'a> WithLimits<'a> {
    pub fn new(bytes: &'a [u8]) -> Self
        ensures { result ≡ bytes.now }
    {
        WithLimits {
            bytes,
            table: limits(edition_of(bytes)),
        }
    }
}

// 5: a time outside its limits. The caller ensures that it is in the slice.
#[tactic(auto, using(rules::proofs::Checks::checks), unfolding(rules::specs::Personality::time_at))]
pub fn time_at(p: &WithLimits, place: usize, setting: usize) -> Result<(), Refusal>
    requires { place + 2 ≤ length p.now }
    ensures { result ≡ time_at p.now place setting }
{
    if within(p.table, setting, two_in(p.bytes, place)) {
        Ok(())
    } else {
        Err(Refusal { number: 5, place })
    }
}

// A record of two-byte times, field by field. The first field has the setting number given.
#[tactic(auto, using(rules::proofs::Checks::checks), unfolding(rules::specs::Personality::times_at))]
fn times_at(p: &WithLimits, place: usize, setting: usize, fields: usize) -> Result<(), Refusal>
    requires { (place ≤ 300000) × (setting ≤ 10) × (fields ≤ 10) × (place + fields * 2 ≤ length p.now) }
    ensures { result ≡ times_at p.now place setting fields }
{
    for f in 0..fields {
        time_at(p, place + f * 2, setting + f)?;
    }
    Ok(())
}

// All records of times of a section, one after the other.
#[tactic(auto, using(rules::proofs::Checks::checks), unfolding(rules::specs::Personality::time_records, rules::specs::Personality::record_at, rules::specs::Personality::body_at))]
fn time_records(
    p: &WithLimits,
    head: usize,
    setting: usize,
    fields: usize,
    count: usize,
) -> Result<(), Refusal>
    requires { (head ≤ 200000) × (setting ≤ 10) × (fields ≤ 10) × (count ≤ 255)
        × (head + 4 + count * (fields * 2) ≤ length p.now) }
    ensures { result ≡ time_records p.now head setting fields count }
{
    let width = fields * 2;
    for i in 0..count {
        times_at(p, head + 4 + i * width, setting, fields)?;
    }
    Ok(())
}

// The checks of a section of times: head and body length, then the records.
#[tactic(auto, using(rules::proofs::Checks::checks), unfolding(rules::specs::Personality::timed_section, rules::specs::Personality::body_at))]
pub fn timed_section(
    p: &WithLimits,
    head: usize,
    kind: u16,
    setting: usize,
    fields: usize,
    count: usize,
) -> Result<(), Refusal>
    requires { (head ≤ 200000) × (setting ≤ 10) × (fields ≤ 10) × (count ≤ 255) }
    ensures { result ≡ timed_section p.now head kind setting fields count }
{
    sized_section(p.bytes, head, kind, count * (fields * 2))?;
    time_records(p, head, setting, fields, count)
}
