// The times of the seven phases: L, M, X, G, Y, R in 12 bytes each, and in another place the kind 7 times in 2 bytes each.
ghost use Rattle.std.specs.Prelude.{◌+◌, ◌*◌, ◌≤◌, true, map, ◌≡◌, length};
ghost use Rattle.std.proofs.lemmas.List.Edits.{sets};
ghost use Rattle.laws.specs.Folds.{row_of};
ghost use Rattle.rules.specs.Site.{no_phase_times};
ghost use Rattle.state_times.specs.TimesLayout.{six, six_of, phase_of, phases as phases_form, earlies};
ghost use Rattle.state_times.specs.TimeRows.{early_in, phase_in};

use crate::{EARLY, PHASE};
use rules::site::PhaseTimes;

pub fn read_one(bytes: &[u8], at: usize, early: u16) -> PhaseTimes
    requires { at + six.width ≤ length bytes.now }
    ensures { result ≡ phase_of (six.read bytes.now at) early }
{
    PhaseTimes {
        late: base_bytes::two_in(bytes, at),
        minimum: base_bytes::two_in(bytes, at + 2),
        maximum: base_bytes::two_in(bytes, at + 4),
        gap: base_bytes::two_in(bytes, at + 6),
        yellow: base_bytes::two_in(bytes, at + 8),
        red: base_bytes::two_in(bytes, at + 10),
        early,
    }
}

pub fn early_in(bytes: &[u8], early: usize, present: bool, p: usize) -> u16
    requires { present ≡ true → early + p * 2 + 2 ≤ length bytes.now }
    ensures { result ≡ early_in bytes.now early present p }
{
    if present {
        base_bytes::two_in(bytes, early + p * EARLY)
    } else {
        0
    }
}

// The times of the first phases, and zeros for the others. The records are at one place, and the kind 7 times, if there are some, at another.
// These are read in a loop of their own: one loop with a test in it is compiled twice, and is then too long to be inlined into a step. With
// a second return before that loop the row is copied, and a step takes 14 instructions more.
pub fn read(bytes: &[u8], at: usize, early: usize, present: bool, count: usize) -> [PhaseTimes; 7]
    requires { (count ≤ 7) × (at + count * 12 ≤ length bytes.now) × (present ≡ true → early + count * 2 ≤ length bytes.now) }
    ensures { result ≡ row_of (phase_in bytes.now at early present) count 7 no_phase_times }
{
    // Written out: a derived Default would offer every crate the times of no phase of any site.
    let blank = PhaseTimes {
        late: 0,
        minimum: 0,
        maximum: 0,
        gap: 0,
        yellow: 0,
        red: 0,
        early: 0,
    };
    let mut records = state_forms::row(count, blank, |p| read_one(bytes, at + p * PHASE, 0));
    if present {
        for p in 0..count {
            records[p].early = base_bytes::two_in(bytes, early + p * EARLY);
        }
    }
    records
}

fn put_one(bytes: &mut [u8], at: usize, own: PhaseTimes)
    requires { at + six.width ≤ length bytes.old }
    ensures { bytes.new ≡ sets bytes.old at (six.written (six_of own)) }
{
    state_forms::put_two(bytes, at, own.late);
    state_forms::put_two(bytes, at + 2, own.minimum);
    state_forms::put_two(bytes, at + 4, own.maximum);
    state_forms::put_two(bytes, at + 6, own.gap);
    state_forms::put_two(bytes, at + 8, own.yellow);
    state_forms::put_two(bytes, at + 10, own.red);
}

pub fn put(bytes: &mut [u8], at: usize, records: [PhaseTimes; 7])
    requires { at + phases_form.width ≤ length bytes.old }
    ensures { bytes.new ≡ sets bytes.old at (phases_form.written (map six_of records)) }
{
    state_forms::put_row(bytes, at, PHASE, &records, put_one);
}

// The kind 7 times.
pub fn put_early(bytes: &mut [u8], at: usize, records: [PhaseTimes; 7])
    requires { at + earlies.width ≤ length bytes.old }
    ensures { bytes.new ≡ sets bytes.old at (earlies.written (map (λ p. p.early) records)) }
{
    state_forms::put_row(
        bytes,
        at,
        EARLY,
        &records,
        |bytes, at, own| state_forms::put_two(bytes, at, own.early),
    );
}
