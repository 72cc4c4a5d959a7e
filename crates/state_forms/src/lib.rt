// Tests, reads and writes values in bytes at a given place, by their forms (specs/Forms.antt). A read requires that the test has passed, so
// it looks at the lowest bits only. A write changes no other bytes. For values of one byte there is no function: the caller reads or
// writes that byte. The bytes and the place are two parameters and no struct, here and in the crates above: each form has a width of its own,
// and a reader borrows the bytes while a writer changes them.
#![tactic(auto)]

ghost use Rattle.std.specs.Prelude.{◌+◌, ◌*◌, ◌<◌, ◌≤◌, true, ◌≡◌, ℕ, List, length, get_or};
ghost use Rattle.std.proofs.lemmas.List.Edits.{sets};
ghost use Rattle.state_forms.specs.Forms.{two, held as held_form, parts_of};

// ---- Numbers of two bytes ----

pub fn put_two(bytes: &mut [u8], at: usize, x: u16)
    requires { at + two.width ≤ length bytes.old }
    ensures { bytes.new ≡ sets bytes.old at (two.written x) }
{
    let [low, high] = x.to_le_bytes();
    bytes[at] = low;
    bytes[at + 1] = high;
}

// ---- All bytes of a part ----

pub fn put_all(bytes: &mut [u8], at: usize, part: &[u8])
    requires { at + length part.now ≤ length bytes.old }
    ensures { bytes.new ≡ sets bytes.old at part.now }
{
    for (i, byte) in part.iter().enumerate() {
        bytes[at + i] = *byte;
    }
}

// ---- A phase or none ----

#[tactic(auto, using(std::proofs::lemmas::Bool::Decides::nat_tests), unfolding(laws::specs::Bytes::byte_at))]
pub fn held_known(bytes: &[u8], at: usize) -> bool
    requires { at + held_form.width ≤ length bytes.now }
    ensures { result ≡ held_form.known bytes.now at }
{
    let tag = bytes[at];
    tag == 1 || tag == 0 && bytes[at + 1] == 0
}

pub fn get_held(bytes: &[u8], at: usize) -> Option<u8>
    requires { (at + held_form.width ≤ length bytes.now) × (held_form.known bytes.now at ≡ true) }
    ensures { result ≡ held_form.read bytes.now at }
{
    (bytes[at] % 2 == 1).then_some(bytes[at + 1])
}

#[tactic(auto, unfolding(rules::specs::IntervalTable::is_held, rules::specs::IntervalTable::phase_held))]
pub fn put_held(bytes: &mut [u8], at: usize, h: Option<u8>)
    requires { at + held_form.width ≤ length bytes.old }
    ensures { bytes.new ≡ sets bytes.old at (held_form.written h) }
{
    match h {
        Some(phase) => put_all(bytes, at, &[1, phase]),
        None => put_all(bytes, at, &[0, 0]),
    }
}

// ---- Several of a kind ----

// The first entries of a row, and blanks behind them.
pub fn row<T: Copy, const N: usize, F: Fn(usize) -> T>(count: usize, blank: T, entry: F) -> [T; N]
    requires few { count ≤ N }
    requires callable { (k : ℕ) → k < count → F.pre entry k }
    ensures entries { (k : ℕ) → k < count → F.post entry k (get_or result k blank) }
    ensures blanks { (k : ℕ) → count ≤ k → get_or result k blank ≡ blank }
{
    let mut entries = [blank; N];
    for k in 0..count {
        entries[k] = entry(k);
    }
    entries
}

// Writes records one after the other, each by a function that writes one at its place.
pub fn put_row<T: Copy, F: Fn(&mut [u8], usize, T)>(
    bytes: &mut [u8],
    at: usize,
    width: usize,
    records: &[T],
    put: F,
)
    ghost written: { T → List ℕ }
    requires sized { (x : T) → length (written x) ≡ width }
    requires room { at + length records.now * width ≤ length bytes.old }
    requires callable { (b : _) (a : ℕ) (x : T) → a + width ≤ length b.now → F.pre put b a x }
    requires puts { (b : _) (a : ℕ) (x : T) (r : _) (c : _) → F.post put b a x r c → c.now ≡ sets b.now a (written x) }
    ensures { (d : T) → bytes.new ≡ sets bytes.old at (parts_of (λ k. written (get_or records.now k d)) (length records.now)) }
{
    for (k, record) in records.iter().enumerate() {
        put(bytes, at + k * width, *record);
    }
}
