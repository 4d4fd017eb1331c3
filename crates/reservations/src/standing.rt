// The rights as a whole: which are valid, who holds, when a reservation ends, the generation.
ghost use Rattle.std.specs.Prelude.{◌≡◌};
ghost use Rattle.rights.specs.Rights.{holds, holder_key, stands, rights_ok, held, gone, ended, settled, raised, no_rights};

use crate::places::UNUSED;
use crate::{kinds, places};
use rights::{NO_TYPE, REGISTRATION_PLACES, Rights};

// No registration, no reservation, generation 0.
#[tactic(auto, unfolding(rights::specs::Rights::no_rights))]
pub fn none() -> Rights
    ensures { result ≡ no_rights }
{
    Rights {
        places: [UNUSED; REGISTRATION_PLACES],
        holder: 0,
        generation: 0,
        kind: NO_TYPE,
    }
}

// Whether a nexus holds the reservation.
#[tactic(auto, unfolding(rights::specs::Rights::holds))]
pub fn holds(rights: &Rights, nexus: u64) -> bool
    ensures { result ≡ holds rights.now nexus }
{
    (kinds::one_holds(rights.kind) && rights.holder == nexus)
        || (kinds::all_hold(rights.kind) && places::is_registered(&rights.places, nexus))
}

// The key of the one nexus that holds; 0 where all hold or none does.
#[tactic(auto, unfolding(rights::specs::Rights::holder_key))]
pub fn holder_key(rights: &Rights) -> u64
    ensures { result ≡ holder_key rights.now }
{
    if kinds::one_holds(rights.kind) {
        places::key_of(&rights.places, rights.holder)
    } else {
        0
    }
}

// Whether a reservation has who holds it, or there is none. Most stores have none, and need no look at the places for it.
#[tactic(auto, unfolding(rights::specs::Rights::stands))]
fn stands(rights: &Rights) -> bool
    ensures { result ≡ stands rights.now.places rights.now.kind rights.now.holder }
{
    (rights.kind == NO_TYPE && rights.holder == 0)
        || (kinds::one_holds(rights.kind) && places::is_registered(&rights.places, rights.holder))
        || (kinds::all_hold(rights.kind)
            && rights.holder == 0
            && places::has_registrant(&rights.places))
}

// Whether the rights are valid.
#[tactic(auto, unfolding(rights::specs::Rights::rights_ok, rights::specs::Rights::places_ok))]
pub fn valid(rights: &Rights) -> bool
    ensures { result ≡ rights_ok rights.now }
{
    places::apart(&rights.places) && stands(rights)
}

// The rights with a reservation by a nexus.
#[tactic(auto, unfolding(rights::specs::Rights::held, rights::specs::Rights::with_reservation))]
pub fn held(rights: Rights, kind: u32, nexus: u64) -> Rights
    ensures { result ≡ held rights kind nexus }
{
    let holder = if kinds::all_hold(kind) { 0 } else { nexus };
    Rights {
        kind,
        holder,
        ..rights
    }
}

// The rights with no reservation.
#[tactic(auto, unfolding(rights::specs::Rights::ended, rights::specs::Rights::with_reservation))]
pub fn ended(rights: Rights) -> Rights
    ensures { result ≡ ended rights }
{
    Rights {
        kind: NO_TYPE,
        holder: 0,
        ..rights
    }
}

// Whether the holder, or the last registrant, is gone.
#[tactic(auto, unfolding(rights::specs::Rights::gone))]
fn gone(rights: &Rights) -> bool
    ensures { result ≡ gone rights.now }
{
    (kinds::one_holds(rights.kind) && !places::is_registered(&rights.places, rights.holder))
        || (kinds::all_hold(rights.kind) && !places::has_registrant(&rights.places))
}

// A reservation ends where its holder, or the last registrant, is gone.
#[tactic(auto, unfolding(rights::specs::Rights::settled))]
pub fn settled(rights: Rights) -> Rights
    ensures { result ≡ settled rights }
{
    if gone(&rights) { ended(rights) } else { rights }
}

// The generation one higher; after FFFF_FFFFh it is 0.
#[tactic(auto, unfolding(rights::specs::Rights::raised, rights::specs::Rights::with_generation))]
pub fn raised(rights: Rights) -> Rights
    ensures { result ≡ raised rights }
{
    Rights {
        generation: rights.generation.wrapping_add(1),
        ..rights
    }
}
