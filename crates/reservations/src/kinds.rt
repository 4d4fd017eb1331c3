// The types of a reservation. A type is a number and no enum of its own: it stands in the record of the rights, which is C's, and where any number may be found.
ghost use Rattle.std.specs.Prelude.{◌≡◌};
ghost use Rattle.rights.specs.Rights.{one_holds, all_hold};

use rights::{
    EXCLUSIVE_ACCESS, EXCLUSIVE_ACCESS_ALL_REGISTRANTS, EXCLUSIVE_ACCESS_REGISTRANTS_ONLY,
    WRITE_EXCLUSIVE, WRITE_EXCLUSIVE_ALL_REGISTRANTS, WRITE_EXCLUSIVE_REGISTRANTS_ONLY,
};

// Whether one nexus holds.
#[tactic(auto, unfolding(rights::specs::Rights::one_holds, rights::specs::Rights::is_one_of))]
pub fn one_holds(kind: u32) -> bool
    ensures { result ≡ one_holds kind }
{
    matches!(
        kind,
        WRITE_EXCLUSIVE
            | EXCLUSIVE_ACCESS
            | WRITE_EXCLUSIVE_REGISTRANTS_ONLY
            | EXCLUSIVE_ACCESS_REGISTRANTS_ONLY
    )
}

// Whether every registered nexus holds.
#[tactic(auto, unfolding(rights::specs::Rights::all_hold, rights::specs::Rights::is_one_of))]
pub fn all_hold(kind: u32) -> bool
    ensures { result ≡ all_hold kind }
{
    matches!(
        kind,
        WRITE_EXCLUSIVE_ALL_REGISTRANTS | EXCLUSIVE_ACCESS_ALL_REGISTRANTS
    )
}
