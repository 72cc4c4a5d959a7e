// Puts text into `out` from a place on. Each function answers the place behind its text.
#![tactic(auto)]

ghost use Rattle.std.specs.Prelude.{ℕ, ◌+◌, ◌/◌, ◌%◌, ◌<◌, ◌≤◌, ◌≡◌, length, MatchOption};
ghost use Rattle.laws.specs.Decimal.{decimal};
ghost use Rattle.base_text.specs.Put.{Put};

// Puts bytes.
pub fn put_bytes(bytes: &[u8], at: usize, out: &mut [u8]) -> usize
    requires { at + length bytes.now ≤ length out.old }
    ensures { Put bytes.now at out.old out.new result }
{
    state_forms::put_all(out, at, bytes);
    at + bytes.len()
}

// A number that can be taken apart into its decimal digits, from the last one on.
pub trait Decimal: Copy {
    ghost number: { Self → ℕ };

    // How many digits a number of the type has at most. `front` says that it has no more, and at most 20, since a law could not use that a value fits its type.
    ghost most: { ℕ };

    // The number without its last digit, where it has more than one.
    fn front(self) -> Option<Self>
        ensures cut { MatchOption result (number self < 10) (λ front. (10 ≤ number self) × (number front ≡ number self / 10)) }
        ensures few { (length (decimal (number self)) ≤ most) × (most ≤ 20) };

    fn last(self) -> u8
        ensures { result ≡ number self % 10 };
}

impl Decimal for u16 {
    ghost number = { λ n. n };

    ghost most = { 5 };

    fn front(self) -> Option<u16> {
        (self >= 10).then(|| self / 10)
    }

    fn last(self) -> u8 {
        (self % 10) as u8
    }
}

// The library puts no number of this width: a small processor has no division of 64 bits.
impl Decimal for u64 {
    ghost number = { λ n. n };

    ghost most = { 20 };

    fn front(self) -> Option<u64> {
        (self >= 10).then(|| self / 10)
    }

    fn last(self) -> u8 {
        (self % 10) as u8
    }
}

// How many decimal digits a number has.
pub fn digit_count<D: Decimal>(n: D) -> usize
    ensures { (result ≡ length (decimal (D.number n))) × (result ≤ D.most) }
{
    let mut rest = n;
    let mut count: usize = 1;
    while let Some(front) = rest.front() {
        rest = front;
        count += 1;
    }
    count
}

// Puts a number in decimal, the last digit first.
pub fn put_decimal<D: Decimal>(n: D, at: usize, out: &mut [u8]) -> usize
    requires { at + length (decimal (D.number n)) ≤ length out.old }
    ensures { Put (decimal (D.number n)) at out.old out.new result }
{
    let end = at + digit_count(n);
    let mut rest = n;
    let mut i = end - 1;
    while let Some(front) = rest.front() {
        out[i] = 48 + rest.last();
        rest = front;
        i -= 1;
    }
    out[i] = 48 + rest.last();
    end
}
