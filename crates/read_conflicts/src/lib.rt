// Kind 4: which groups conflict. A quick test comes first. If it fails, number 9 is checked record by record, then number 10 record by
// record.
#![tactic(auto)]

ghost use Rattle.std.specs.Prelude.{◌≡◌};
ghost use Rattle.rules.specs.Verdicts.{Accepted};
ghost use Rattle.rules.specs.Personality.{groups_section, conflicts_section};

use crate::records::searched;
use read_conflicts_matrix::Matrix;
use read_conflicts_quick::surely_right;
use read_layout::Counted;
use read_sections::sized_section;
use rules::answer::Refusal;

mod records;

// The checks of kind 4. Kind 3 is accepted before, so that after the check of the head all records of both kinds are in the bytes.
pub fn conflicts_section(c: &Counted) -> Result<(), Refusal>
    requires { groups_section c.now ≡ Accepted }
    ensures { result ≡ conflicts_section c.now }
{
    let s = &c.sections;
    sized_section(
        s.bytes,
        s.layout.conflicts,
        4,
        usize::from(s.layout.groupcount) * 4,
    )?;
    let m = Matrix {
        bytes: s.bytes,
        layout: &s.layout,
    };
    if surely_right(&m) {
        return Ok(());
    }
    searched(&m)
}
