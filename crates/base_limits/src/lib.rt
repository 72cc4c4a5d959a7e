// The tables of the lowest and highest values of the time settings, in steps of 0.1 s, one for each edition of the limits. The reader takes
// the table of the personality's edition once for each section and checks every time of the section with it; the test of a state takes it
// once for a set of times.
#![tactic(auto)]

ghost use Rattle.std.specs.Prelude.{◌≡◌};
ghost use Rattle.rules.specs.Limits.{limits, within};

use rules::site::{Edition, Range};

// Edition one, by setting number: start red; L, M, X, G, Y, R of a phase; W, C1, C2 of a movement; early cut-off green of a phase.
const ONE: [Range; 11] = [
    Range { low: 10, high: 150 },
    Range { low: 0, high: 200 },
    Range { low: 10, high: 400 },
    Range {
        low: 10,
        high: 1500,
    },
    Range { low: 0, high: 100 },
    Range { low: 30, high: 100 },
    Range { low: 10, high: 150 },
    Range { low: 10, high: 400 },
    Range { low: 1, high: 400 },
    Range { low: 1, high: 400 },
    Range { low: 0, high: 200 },
];

// Edition two, in the same order. Start red is 30 at least, all-red 15.
const TWO: [Range; 11] = [
    Range { low: 30, high: 150 },
    Range { low: 0, high: 200 },
    Range { low: 10, high: 400 },
    Range {
        low: 10,
        high: 1500,
    },
    Range { low: 0, high: 100 },
    Range { low: 30, high: 100 },
    Range { low: 15, high: 150 },
    Range { low: 10, high: 400 },
    Range { low: 1, high: 400 },
    Range { low: 1, high: 400 },
    Range { low: 0, high: 200 },
];

// The table of an edition. It is that of the rules, entry by entry.
#[tactic(auto, unfolding(rules::specs::Limits::limits))]
pub fn limits(edition: Edition) -> [Range; 11]
    ensures { result ≡ limits edition }
{
    match edition {
        Edition::One => ONE,
        Edition::Two => TWO,
    }
}

// Whether a table allows the value for the setting. A setting outside the table allows only 0.
#[tactic(auto, unfolding(rules::specs::Limits::within, rules::specs::Limits::limit_of))]
pub fn within(table: [Range; 11], setting: usize, value: u16) -> bool
    ensures { result ≡ within table setting value }
{
    let range = table
        .get(setting)
        .copied()
        .unwrap_or(Range { low: 0, high: 0 });
    range.low <= value && value <= range.high
}
