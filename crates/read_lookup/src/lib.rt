// The section lookup. The answer is a part of the caller's own buffer: the body of the section. It is empty if the personality is refused or
// does not hold the kind. A second function gives the number and place.
#![tactic(auto)]

ghost use Rattle.std.specs.Prelude.{◌≤◌, ◌≡◌, Err, IfErr, IfOk};
ghost use Rattle.rules.specs.Verdicts.{Accepted};
ghost use Rattle.rules.specs.Lookup.{held_kind, head_of, lookup_verdict, lookup_report, section_of};

use base_bytes::two_at;
use read_layout::{Sections, edition_of, site_kind};
use read_personality::accepted;
use rules::answer::{Refusal, Report};

// Whether the personality holds the kind: 1 or 8 by its edition, 2 to 6, and 7 and 9 if they are present. The kind is a number and no enum: a
// caller in C hands over any number (`willowera_section`).
#[tactic(auto, using(crate::proofs::Lookups::seventh_held), unfolding(rules::specs::Lookup::held_kind))]
fn held_kind(sections: &Sections, kind: u16) -> bool
    ensures { result ≡ held_kind sections.now kind }
{
    let layout = &sections.layout;
    match kind {
        2..=6 => true,
        7 => layout.hasearly,
        9 => layout.hasorder,
        _ => kind == site_kind(edition_of(sections.bytes)),
    }
}

// The head of the section of a kind. For kinds 7 and 9 it is their place even if they are not present; kinds 1 and 8 have the same place. For any
// other number it is 0.
#[tactic(auto, unfolding(rules::specs::Lookup::head_of))]
fn head_of(sections: &Sections, kind: u16) -> usize
    ensures { (result ≡ head_of sections.now kind) × (result ≤ 201227) }
{
    let layout = &sections.layout;
    match kind {
        2 => 8,
        3 => layout.groups,
        4 => layout.conflicts,
        5 => layout.detectors,
        6 => layout.pedestrians,
        7 => layout.early,
        9 => layout.order,
        _ => 0,
    }
}

// Why a lookup finds no section, and the place of the head that the kind would have.
#[derive(Clone, Copy)]
pub struct Missing {
    pub refusal: Refusal,
    pub head: usize,
}

// The lookup of a kind: the head of its section. The personality is read once, and its layout has the head. The personality's own refusal comes
// first, and then 2 at 0 for a kind that is not held.
#[tactic(auto, using(rules::proofs::Checks::checks), unfolding(rules::specs::Lookup::lookup_verdict))]
pub fn find(personality: &[u8], kind: u16) -> Result<usize, Missing>
    ensures found { IfOk result (λ head. (lookup_verdict personality.now kind ≡ Accepted)
        × (head ≡ head_of personality.now kind) × (head ≤ 201227)) }
    ensures missing { IfErr result (λ m. (lookup_verdict personality.now kind ≡ Err m.refusal)
        × (m.head ≡ head_of personality.now kind) × (m.head ≤ 201227)) }
{
    match accepted(personality) {
        Ok(p) => {
            let sections = &p.sections;
            let head = head_of(sections, kind);
            if held_kind(sections, kind) {
                return Ok(head);
            }
            Err(Missing {
                refusal: Refusal {
                    number: 2,
                    place: 0,
                },
                head,
            })
        }
        Err(refusal) => Err(Missing {
            refusal,
            head: head_of(&Sections::new(personality), kind),
        }),
    }
}

// The part of the personality that is the body of the kind's section.
pub fn section_of(personality: &[u8], kind: u16) -> &[u8]
    ensures { result.now ≡ section_of personality.now kind }
{
    match find(personality, kind) {
        Ok(head) => {
            let start = head + 4;
            let end = start + usize::from(two_at(personality, head));
            &personality[start..end]
        }
        Err(_) => &personality[0..0],
    }
}

// The number and place of the lookup, 0 at 0 if the section is found.
#[tactic(auto, using(rules::proofs::Checks::checks), unfolding(rules::specs::Lookup::lookup_report, rules::specs::Lookup::report_of))]
pub fn lookup_report(personality: &[u8], kind: u16) -> Report
    ensures { result ≡ lookup_report personality.now kind }
{
    match find(personality, kind) {
        Ok(_) => Report {
            number: 0,
            place: 0,
        },
        Err(missing) => Report {
            number: missing.refusal.number,
            place: missing.refusal.place,
        },
    }
}
