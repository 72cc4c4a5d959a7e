// Compares the reader's verdict with each vector of the file `reads`. A vector has a two-byte length, the bytes, the number (1 byte) and
// the place (4 bytes). The sections of an accepted vector are looked up; together they must be all of its bytes. Prints how many vectors
// there are, how many agree, and the first that does not. A file that can't be opened or read ends the program with the error.
#![tactic(auto)]

ghost use Rattle.std.specs.Prelude.{◌+◌, ◌<◌, ◌≤◌, ◌^◌, ◌≡◌};

use run_input::next_bytes;
use std::alloc::Global;
use std::fs::File;
use std::io;
use std::io::Read;

// More vectors than the file has.
const MOST: u64 = 100000;

// How many vectors were read, how many agree, and the first that does not, counted from 1.
#[derive(Clone, Copy, Default)]
struct Tally {
    read: u64,
    agree: u64,
    first: Option<u64>,
}

impl Tally {
    fn count(&mut self, agrees: bool)
        requires { (self.old.read < 2 ^ 32) × (self.old.agree ≤ self.old.read) }
        ensures { (self.new.read ≡ self.old.read + 1) × (self.new.agree ≤ self.new.read) }
    {
        self.read += 1;
        if agrees {
            self.agree += 1;
        } else {
            self.first = self.first.or(Some(self.read));
        }
    }
}

// The greatest kind of a section.
const KINDS: u16 = 9;

// Whether the sections, each with a head of 4 bytes, make up the whole personality.
fn whole(personality: &[u8]) -> bool {
    let mut left = personality.len();
    for kind in 1..=KINDS {
        let report = read_lookup::lookup_report(personality, kind);
        if report.number == 0 {
            let body = read_lookup::section_of(personality, kind);
            if left < 4 || left - 4 < body.len() {
                return false;
            }
            left -= 4 + body.len();
        }
    }
    left == 0
}

// Whether the reader gives this number and place, 0 at 0 if it accepts.
fn agrees(personality: &[u8], number: u8, place: u32) -> bool {
    match read_personality::read(personality) {
        Ok(()) => number == 0 && place == 0 && whole(personality),
        Err(refusal) => refusal.number == number && refusal.place == place as usize,
    }
}

// Compares the bytes with the number and place that follow them in the file.
fn compare<R: Read>(alloc: Global, file: &mut R, personality: &[u8]) -> io::Result<bool> {
    let right = next_bytes(alloc, file, 5)?;
    Ok(
        right.len() == 5
            && agrees(
                personality,
                base_bytes::byte_at(&right, 0),
                base_bytes::four_at(&right, 1),
            ),
    )
}

// Reads a vector of `size` bytes and compares.
fn take<R: Read>(alloc: Global, file: &mut R, size: u16) -> io::Result<bool> {
    let personality = next_bytes(alloc, file, u64::from(size))?;
    if personality.len() < usize::from(size) {
        return Ok(false);
    }
    compare(alloc, file, &personality)
}

// Whether the reader agrees with the next vector, if there is one.
fn next<R: Read>(alloc: Global, file: &mut R) -> io::Result<Option<bool>> {
    let head = next_bytes(alloc, file, 2)?;
    if head.len() < 2 {
        return Ok(None);
    }
    Ok(Some(take(alloc, file, base_bytes::two_at(&head, 0))?))
}

fn run<R: Read>(alloc: Global, file: &mut R) -> io::Result<Tally> {
    let mut tally = Tally::default();
    for _ in 0..MOST {
        let Some(agrees) = next(alloc, file)? else {
            break;
        };
        tally.count(agrees);
    }
    Ok(tally)
}

fn main(rt: HostRuntime) -> io::Result<()> {
    let mut file = File::open(&rt, "reads")?;
    let tally = run(rt.alloc(), &mut file)?;
    println!(rt; "vectors {}", tally.read)?;
    println!(rt; "agree {}", tally.agree)?;
    println!(rt; "first that differs {}", tally.first.unwrap_or(0))
}
