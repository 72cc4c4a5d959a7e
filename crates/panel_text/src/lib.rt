// The line of the technician's panel as text: a phase, and the reasons why it holds.
#![tactic(auto)]

ghost use Rattle.std.specs.Prelude.{◌+◌, ◌≤◌, ◌<◌, ◌≡◌, ◌++◌, [], length, is_some, if◌then◌else◌};
ghost use Rattle.panel_text.specs.Text.{reason_text, number_text, line};
ghost use Rattle.base_text.specs.Put.{Put};

use base_text::{digit_count, put_bytes, put_decimal};

// Why a phase holds. The gap count and the steps left are in steps of 0.1 s; movements are numbered from 1.
#[derive(Clone, Copy)]
pub enum Reason {
    NoOtherDemand,
    Gap { count: u16 },
    Max { left: u16 },
    Walk { number: u16 },
}

// The word of a reason, with what stands before and behind it, and the number behind the word, if it has one.
#[tactic(auto, unfolding(crate::specs::Text::reason_text))]
fn parts_of(reason: Reason) -> (&'static [u8], Option<u16>)
    ensures text { reason_text reason ≡ result.0.now ++ number_text result.1 }
    ensures short { length result.0.now + (if is_some result.1 then 5 else 0) ≤ 17 }
{
    match reason {
        Reason::NoOtherDemand => (b", no other demand", None),
        Reason::Gap { count } => (b", gap ", Some(count)),
        Reason::Max { left } => (b", max ", Some(left)),
        Reason::Walk { number } => (b", walk ", Some(number)),
    }
}

// Puts a reason, from a place on.
pub fn put_reason(reason: Reason, at: usize, out: &mut [u8]) -> usize
    requires { at + length (reason_text reason) ≤ length out.old }
    ensures { Put (reason_text reason) at out.old out.new result }
{
    let (word, number) = parts_of(reason);
    let next = put_bytes(word, at, out);
    match number {
        Some(n) => put_decimal(n, next, out),
        None => next,
    }
}

// How many bytes a reason takes.
pub fn reason_length(reason: Reason) -> usize
    ensures { (result ≡ length (reason_text reason)) × (result ≤ 17) }
{
    let (word, number) = parts_of(reason);
    match number {
        Some(n) => word.len() + digit_count(n),
        None => word.len(),
    }
}

// Puts the phase letter and ` holds` at the start of `out`.
pub fn put_phase(phase: u8, out: &mut [u8]) -> usize
    requires { (phase < 7) × (7 ≤ length out.old) }
    ensures { Put (line phase []) 0 out.old out.new result }
{
    out[0] = b'A' + phase;
    put_bytes(b" holds", 1, out)
}
