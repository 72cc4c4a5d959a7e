// Sets of phases or movements in one byte. Bit 0 is phase A, or the first movement.
ghost use Rattle.std.specs.Prelude.{◌<◌, ◌≤◌, not, ◌&&◌, ◌||◌, ◌≡◌, eqb, ltb};
ghost use Rattle.laws.specs.Bytes.{bit};
ghost use Rattle.laws.specs.Folds.{all_of, set_of};

// The set with k in it.
pub fn with(set: u8, k: u8) -> u8
    requires { k < 8 }
    ensures { result ≡ set_of (λ i. bit i set || eqb i k) }
{
    set | (1 << k)
}

// The set without k.
pub fn without(set: u8, k: u8) -> u8
    requires { k < 8 }
    ensures { result ≡ set_of (λ i. bit i set && not (eqb i k)) }
{
    set & !(1 << k)
}

// The members that are not in the other set.
pub fn except(set: u8, other: u8) -> u8
    ensures { result ≡ set_of (λ i. bit i set && not (bit i other)) }
{
    set & !other
}

// Whether every member is below the count.
pub fn all_below(set: u8, count: u8) -> bool
    requires { count ≤ 8 }
    ensures { result ≡ all_of (λ i. not (bit i set) || ltb i count) 8 }
{
    u16::from(set) >> count == 0
}
