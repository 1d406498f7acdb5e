//! What the stanzas read so far come to. It touches nothing and takes no memory.
ghost use Rattle.std.specs.Prelude.{◌≡◌};
ghost use Rattle.deb_fetch.specs.Founds as spec;

use crate::stanza::Stanza;
use acq_base::Sum;

/// The first stanza, and whether another one has another sum.
#[derive(Debug, Drop)]
pub struct Found {
    pub first: Option<Stanza>,
    pub several: bool,
}

impl Found {
    /// No stanza.
    pub fn nothing() -> Found
        ensures value { result ≡ spec.nothing }
        ensures sound { spec.IsSoundFound result }
    {
        Found {
            first: None,
            several: false,
        }
    }

    /// One stanza, or none.
    pub fn one(stanza: Option<Stanza>) -> Found
        ensures { result ≡ spec.one_found stanza }
    {
        Found {
            first: stanza,
            several: false,
        }
    }

    /// With what was found behind it.
    pub fn joined(self, later: Found) -> Found
        ensures value { result ≡ spec.joined self later }
        ensures sound { spec.IsSoundFound self → spec.IsSoundFound later → spec.IsSoundFound result }
    {
        let Found { first, several } = self;
        match first {
            None => later,
            Some(stanza) => {
                let several = several || later.several || has_other_sum(&later, &stanza.sum);
                Found {
                    first: Some(stanza),
                    several,
                }
            }
        }
    }
}

/// Whether a stanza was found first that has another sum.
fn has_other_sum(found: &Found, sum: &Sum) -> bool
    ensures { result ≡ spec.has_other_sum found.now.first sum.now }
{
    match &found.first {
        Some(stanza) => stanza.sum != *sum,
        None => false,
    }
}
