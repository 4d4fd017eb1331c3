// The registration places: who is registered, and how the places change.
// Functions and no methods: the records are declared in `rights`, which has no code.
ghost use Rattle.std.specs.Prelude.{◌≡◌, map};
ghost use Rattle.rights.specs.Places.{unused, used, is_of, registered, known, somebody, vacant, key_of, enrol, rekeyed, without, alone};
ghost use Rattle.rights.specs.Rights.{places_apart};
ghost use Rattle.reservations.specs.Search.{sound_before};

use rights::{LAST_NEXUS, Place, REGISTRATION_PLACES};

// What an unused place holds.
pub(crate) const UNUSED: Place = Place { nexus: 0, key: 0 };

// Whether a place is used.
#[tactic(auto, unfolding(rights::specs::Places::used))]
pub fn is_used(place: &Place) -> bool
    ensures { result ≡ used place.now }
{
    place.key != 0
}

// Whether a place is that of a nexus.
#[tactic(auto, unfolding(rights::specs::Places::is_of))]
fn is_of(place: &Place, nexus: u64) -> bool
    ensures { result ≡ is_of nexus place.now }
{
    is_used(place) && place.nexus == nexus
}

// Whether a nexus is registered.
pub fn is_registered(places: &[Place], nexus: u64) -> bool
    ensures { result ≡ registered nexus places.now }
{
    places.iter().any(|place| is_of(place, nexus))
}

// Whether a key is that of a registration.
pub fn is_known(places: &[Place], key: u64) -> bool
    ensures { result ≡ known key places.now }
{
    places
        .iter()
        .any(|place| is_used(place) && place.key == key)
}

// Whether anybody is registered.
pub fn has_registrant(places: &[Place]) -> bool
    ensures { result ≡ somebody places.now }
{
    places.iter().any(is_used)
}

// Whether a place is free.
pub fn has_free(places: &[Place]) -> bool
    ensures { result ≡ vacant places.now }
{
    places.iter().any(|place| !is_used(place))
}

// The key of a nexus; 0 where it is not registered.
pub fn key_of(places: &[Place], nexus: u64) -> u64
    ensures { result ≡ key_of nexus places.now }
{
    places
        .iter()
        .find(|place| is_of(place, nexus))
        .map_or(0, |place| place.key)
}

// The lowest free place given to a nexus.
pub fn enrol(
    places: &[Place; REGISTRATION_PLACES],
    nexus: u64,
    key: u64,
) -> [Place; REGISTRATION_PLACES]
    ensures { result ≡ enrol nexus key places.now }
{
    let mut after = *places;
    if let Some(i) = places.iter().position(|place| !is_used(place)) {
        after[i] = Place { nexus, key };
    }
    after
}

// A place once a nexus gave a key.
#[tactic(auto, unfolding(rights::specs::Places::rekeyed, rights::specs::Places::with_key))]
fn rekey(place: Place, nexus: u64, key: u64) -> Place
    ensures { result ≡ rekeyed nexus key place }
{
    if !is_of(&place, nexus) {
        return place;
    }
    if key == 0 {
        UNUSED
    } else {
        Place { key, ..place }
    }
}

// The key of a nexus changed; 0 unregisters.
pub fn rekeyed(
    places: &[Place; REGISTRATION_PLACES],
    nexus: u64,
    key: u64,
) -> [Place; REGISTRATION_PLACES]
    ensures { result ≡ map (rekeyed nexus key) places.now }
{
    places.map(|place| rekey(place, nexus, key))
}

// A place once all with a key are removed, but for the nexus that is spared.
#[tactic(auto, unfolding(rights::specs::Places::without, rights::specs::Places::spares))]
fn remove(place: Place, key: u64, spared: Option<u64>) -> Place
    ensures { result ≡ without spared key place }
{
    if place.key == key && spared != Some(place.nexus) {
        UNUSED
    } else {
        place
    }
}

// All with a key removed, but for the nexus that is spared.
pub fn without(
    places: &[Place; REGISTRATION_PLACES],
    key: u64,
    spared: Option<u64>,
) -> [Place; REGISTRATION_PLACES]
    ensures { result ≡ map (without spared key) places.now }
{
    places.map(|place| remove(place, key, spared))
}

// All but a nexus removed.
pub fn alone(places: &[Place; REGISTRATION_PLACES], nexus: u64) -> [Place; REGISTRATION_PLACES]
    ensures { result ≡ map (alone nexus) places.now }
{
    places.map(|place| if is_of(&place, nexus) { place } else { UNUSED })
}

// All removed.
pub fn emptied(places: &[Place; REGISTRATION_PLACES]) -> [Place; REGISTRATION_PLACES]
    ensures { result ≡ map (λ p. unused) places.now }
{
    places.map(|_| UNUSED)
}

// Whether a place holds what it may, and no later one its nexus.
#[tactic(auto, unfolding(crate::specs::Search::sound_before, rights::specs::Rights::place_ok, rights::specs::Places::used))]
fn is_sound(place: &Place, later: &[Place]) -> bool
    ensures { result ≡ sound_before place.now later.now }
{
    if !is_used(place) {
        return place.nexus == 0;
    }
    place.nexus <= LAST_NEXUS && !is_registered(later, place.nexus)
}

// Whether the used places have different nexuses up to 15, and the unused ones hold zeros.
pub fn apart(places: &[Place]) -> bool
    ensures { result ≡ places_apart places.now }
{
    // every place is looked at: one way out costs less than eight
    let mut all = true;
    let mut rest = places;
    while let Some((place, later)) = rest.split_first() {
        all &= is_sound(place, later);
        rest = later;
    }
    all
}
