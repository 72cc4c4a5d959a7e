// A site of which all is known that acceptance tells of it, as a type: the functions of a step, of its colours and of the waits take it. Whoever
// builds one proves the fact.
#![tactic(auto)]

ghost use Rattle.std.specs.Prelude.{◌≡◌, ◌≤◌, length, take};
ghost use Rattle.rules.specs.Site.{ring};

use rules::site::{Detector, Group, Site};
use std::marker::Model;

// A site with the facts of `Sound` (`rules`, specs/Laws). A contract sees the site. Functions take it by reference: it has some 460 bytes. `Sound`
// has a table of limits in it, and a ghost field holds no data, so the fact is an invariant.
#[derive(Clone, Copy)]
pub struct SoundSite {
    pub site: Site,
}

impl Model for SoundSite {
    ghost use Rattle.rules.specs.declared.site.Site.{Site};
    ghost use Rattle.rules.specs.Laws.{Sound};

    ghost Value = { Site };

    ghost view = { λ s. s.site };

    ghost inverse = { λ site. record { site = site } };

    ghost invariant = { λ s. Sound s.site };
}

// Each row is cut by `split_at`: it tells the length of the part, which a range does not.
impl SoundSite {
    // The phases in running order.
    pub fn ring(&self) -> &[u8]
        ensures { result.now ≡ ring self.now.order self.now.size.phases }
    {
        self.site
            .order
            .split_at(usize::from(self.site.size.phases))
            .0
    }

    // The signal groups of the site.
    pub fn groups(&self) -> &[Group]
        ensures row { result.now ≡ take self.now.size.groups self.now.groups }
        ensures count { length result.now ≡ self.now.size.groups }
    {
        self.site
            .groups
            .split_at(usize::from(self.site.size.groups))
            .0
    }

    // The detectors of the site.
    pub fn detectors(&self) -> &[Detector]
        ensures row { result.now ≡ take self.now.size.detectors self.now.detectors }
        ensures count { length result.now ≡ self.now.size.detectors }
    {
        self.site
            .detectors
            .split_at(usize::from(self.site.size.detectors))
            .0
    }

    // The phase set of each pedestrian movement of the site.
    pub fn crossings(&self) -> &[u8]
        ensures row { result.now ≡ take self.now.size.movements self.now.crossings }
        ensures count { (length result.now ≡ self.now.size.movements) × (length result.now ≤ 8) }
    {
        self.site
            .crossings
            .split_at(usize::from(self.site.size.movements))
            .0
    }
}
