// The times of the eight movements, 6 bytes each.
ghost use Rattle.std.specs.Prelude.{◌+◌, ◌*◌, ◌≤◌, ◌≡◌, length};
ghost use Rattle.std.proofs.lemmas.List.Edits.{sets};
ghost use Rattle.laws.specs.Folds.{row_of};
ghost use Rattle.rules.specs.Site.{no_walk_times};
ghost use Rattle.state_times.specs.TimeRows.{walk_in};
ghost use Rattle.state_times.specs.TimesLayout.{walk, walks as walks_form};

use crate::WALK;
use rules::site::WalkTimes;

pub fn read_one(bytes: &[u8], at: usize) -> WalkTimes
    requires { at + walk.width ≤ length bytes.now }
    ensures { result ≡ walk.read bytes.now at }
{
    WalkTimes {
        walk: base_bytes::two_in(bytes, at),
        first: base_bytes::two_in(bytes, at + 2),
        second: base_bytes::two_in(bytes, at + 4),
    }
}

// The times of the first movements, and zeros for the others.
pub fn read(bytes: &[u8], at: usize, count: usize) -> [WalkTimes; 8]
    requires { (count ≤ 8) × (at + count * 6 ≤ length bytes.now) }
    ensures { result ≡ row_of (walk_in bytes.now at) count 8 no_walk_times }
{
    // Written out: a derived Default would offer every crate the times of no movement of any site.
    let blank = WalkTimes {
        walk: 0,
        first: 0,
        second: 0,
    };
    state_forms::row(count, blank, |k| read_one(bytes, at + k * WALK))
}

fn put_one(bytes: &mut [u8], at: usize, own: WalkTimes)
    requires { at + walk.width ≤ length bytes.old }
    ensures { bytes.new ≡ sets bytes.old at (walk.written own) }
{
    state_forms::put_two(bytes, at, own.walk);
    state_forms::put_two(bytes, at + 2, own.first);
    state_forms::put_two(bytes, at + 4, own.second);
}

pub fn put(bytes: &mut [u8], at: usize, records: [WalkTimes; 8])
    requires { at + walks_form.width ≤ length bytes.old }
    ensures { bytes.new ≡ sets bytes.old at (walks_form.written records) }
{
    state_forms::put_row(bytes, at, WALK, &records, put_one);
}
