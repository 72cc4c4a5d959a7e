// The search for the next phase in the running order.
#![tactic(auto)]

ghost use Rattle.std.specs.Prelude.{◌≡◌, ◌++◌, drop, eqb, find, position};
ghost use Rattle.laws.specs.Bytes.{bit};
ghost use Rattle.rules.specs.Demands.{next_after};

// The index of the phase in the ring, if it is there.
fn place_of(phase: u8, ring: &[u8]) -> Option<usize>
    ensures { result ≡ position (λ q. eqb q phase) ring.now }
{
    ring.iter().position(|q| *q == phase)
}

// The first phase of the set behind the first of `from`, and then in `before`.
fn search(set: u8, from: &[u8], before: &[u8]) -> Option<u8>
    ensures { result ≡ find (λ p. bit p set) (drop 1 from.now ++ before.now) }
{
    from.iter()
        .skip(1)
        .chain(before)
        .copied()
        .find(|p| base_bytes::bit8(*p, set))
}

// The first phase of the set after this one in the cycle: first the phases after it, then those before it. The ring is the phases in running order.
pub fn next_after(set: u8, phase: u8, ring: &[u8]) -> Option<u8>
    ensures { result ≡ next_after ring.now phase (λ p. bit p set) }
{
    let at = place_of(phase, ring).unwrap_or(ring.len());
    let (before, from) = ring.split_at(at);
    search(set, from, before)
}
