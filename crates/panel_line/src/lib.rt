// The line of a phase in running, from what it says: its length, and the line in a buffer.
#![tactic(auto)]

ghost use Rattle.std.specs.Prelude.{◌+◌, ◌≤◌, ◌<◌, ◌++◌, ◌≡◌, length, drop};
ghost use Rattle.std.specs.Bool.{then_some};
ghost use Rattle.std.specs.List.{flat_map};
ghost use Rattle.std.specs.Option.{option_to_list};
ghost use Rattle.laws.specs.Bytes.{bit};
ghost use Rattle.panel_text.specs.declared.Reason.TheVariants.{Walk};
ghost use Rattle.panel_line.specs.Reasons.{reasons_by, line_of};

use panel_text::{Reason, put_phase, put_reason, reason_length};

// What the line says of the phase.
#[derive(Clone, Copy)]
pub struct Why {
    pub phase: u8,
    // no other phase is demanded
    pub alone: bool,
    // the gap count
    pub gap: u16,
    // the steps left before the maximum count reaches X
    pub left: u16,
    // the movements in walk or C1; bit 0 is the first
    pub walks: u8,
}

// Movement k of the set, if it is in it; movements are numbered from 1.
fn walk_in(set: u8, k: u8) -> Option<Reason>
    requires { k < 8 }
    ensures { result ≡ then_some (bit k set) (Walk (k + 1)) }
{
    base_bytes::bit8(k, set).then_some(Reason::Walk {
        number: u16::from(k) + 1,
    })
}

// The reasons of a line in their order, each at a place of its own. The text of the line and its length both come from them.
fn reasons_of(why: Why) -> [Option<Reason>; 11]
    ensures { flat_map option_to_list result ≡ reasons_by why.alone why.gap why.left (λ k. bit k why.walks) }
{
    let walks = why.walks;
    // The eight movements are listed: a loop that fills the array one by one is no plainer.
    [
        why.alone.then_some(Reason::NoOtherDemand),
        (0 < why.gap).then_some(Reason::Gap { count: why.gap }),
        (0 < why.left).then_some(Reason::Max { left: why.left }),
        walk_in(walks, 0),
        walk_in(walks, 1),
        walk_in(walks, 2),
        walk_in(walks, 3),
        walk_in(walks, 4),
        walk_in(walks, 5),
        walk_in(walks, 6),
        walk_in(walks, 7),
    ]
}

// How many bytes the line has; the number fits in a byte.
pub fn line_length(why: Why) -> usize
    ensures { (result ≡ length (line_of why)) × (result < 256) }
{
    let mut total: usize = 7;
    for reason in &reasons_of(why) {
        if let Some(reason) = reason {
            total += reason_length(*reason);
        }
    }
    total
}

// Puts the line at the start of `out`, and answers its length. The bytes behind it stay as they are.
pub fn put_line(why: Why, out: &mut [u8]) -> usize
    requires { (why.phase < 7) × (length (line_of why) ≤ length out.old) }
    ensures { (result ≡ length (line_of why)) × (out.new ≡ line_of why ++ drop (length (line_of why)) out.old) }
{
    let mut next = put_phase(why.phase, out);
    for reason in &reasons_of(why) {
        if let Some(reason) = reason {
            next = put_reason(*reason, next, out);
        }
    }
    next
}
