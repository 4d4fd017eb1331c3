// The six actions of PERSISTENT RESERVE OUT: each tests what its rows test, in their order, and then changes the rights.
#![tactic(auto)]

ghost use Rattle.std.specs.Prelude.{◌≡◌, eqb, not, [], ◌∷◌};
ghost use Rattle.rights.specs.Places.{registered, key_of};
ghost use Rattle.answers.specs.Order.{◌if◌, first};
ghost use Rattle.answers.specs.Answers.{list_field, no_place};
ghost use Rattle.rights.specs.declared.Action.TheVariants.{Register, Reserve, Release, Clear, Preempt, RegisterIgnoring};
ghost use Rattle.rights.specs.Rights.{all_hold, with_places};
ghost use Rattle.rights.specs.Actions.{service_key_bits, register_flags, stranger, crowded, registering, clearing, preempting, taking_over};
ghost use Rattle.rights.specs.Actions.{decided, unless_refused};

use answers::Answer;
use fields::numbers;
use reservations::{kinds, places, standing};
use rights::{
    Action, FLAGS_BYTE, NO_TYPE, Parameters, Place, REGISTRATION_PLACES, Rights, SERVICE_KEY_BYTE,
};

// What a reservation-out call decides: a refusal, or the rights after it.
pub fn decide(
    action: Action,
    rights: &Rights,
    nexus: u64,
    parameters: Parameters,
) -> Result<Rights, Answer>
    ensures { result ≡ decided action rights.now nexus parameters }
{
    let claim = Claim {
        rights,
        nexus,
        parameters,
    };
    match action {
        Action::Register => claim.register(),
        Action::Reserve => claim.reserve(),
        Action::Release => claim.release(),
        Action::Clear => claim.clear(),
        Action::Preempt => claim.preempt(),
        Action::RegisterIgnoring => claim.register_ignoring(),
    }
}

// What the flags answer to both kinds of registering. Three tests and no loop: `register_flags` has a row for each.
#[tactic(auto, unfolding(rights::specs::Actions::register_flags, answers::specs::Order::first_of, answers::specs::Order::if_good_by, answers::specs::Order::refuses, fields::specs::Bits::first_byte, fields::specs::Bits::top_bit, fields::specs::Bits::bit_count))]
fn flags_allowed(parameters: Parameters) -> Result<(), Answer>
    ensures { result ≡ unless_refused (first (register_flags parameters)) tt }
{
    if numbers::bit(parameters.flags, 3) {
        return Err(answers::list_field(FLAGS_BYTE, 3, 1));
    }
    if numbers::bit(parameters.flags, 2) {
        return Err(answers::list_field(FLAGS_BYTE, 2, 1));
    }
    if numbers::bit(parameters.flags, 0) {
        return Err(answers::list_field(FLAGS_BYTE, 0, 1));
    }
    Ok(())
}

// What a nexus asks of the rights.
#[derive(Clone, Copy)]
struct Claim<'a> {
    rights: &'a Rights,
    nexus: u64,
    parameters: Parameters,
}

#[tactic(auto, unfolding(rights::specs::Actions::decided, rights::specs::Actions::decision_rows, rights::specs::Actions::flag_rows, rights::specs::Actions::register_flags, rights::specs::Actions::key_wrong, rights::specs::Actions::action_rows, rights::specs::Actions::acted, rights::specs::Actions::reserving, rights::specs::Actions::releasing, answers::specs::Order::first_of, answers::specs::Order::if_good_by, answers::specs::Order::refuses))]
impl Claim<'_> {
    // Whether the sender is registered.
    fn is_registered(&self) -> bool
        ensures { result ≡ registered self.now.nexus self.now.rights.now.places }
    {
        places::is_registered(&self.rights.places, self.nexus)
    }

    // Whether the key given is that of the sender, which is 0 where it is not registered.
    fn gives_key(&self) -> bool
        ensures { result ≡ eqb self.now.parameters.key (key_of self.now.nexus self.now.rights.now.places) }
    {
        self.parameters.key == places::key_of(&self.rights.places, self.nexus)
    }

    // Whether the sender is unregistered, or its key wrong.
    #[tactic(auto, unfolding(rights::specs::Actions::stranger))]
    fn by_stranger(&self) -> bool
        ensures { result ≡ stranger self.now.rights.now self.now.nexus self.now.parameters }
    {
        !self.is_registered() || !self.gives_key()
    }

    // Whether a nexus that has no place wants one, and all are used.
    #[tactic(auto, unfolding(rights::specs::Actions::crowded))]
    fn crowded(&self) -> bool
        ensures { result ≡ crowded self.now.rights.now self.now.nexus self.now.parameters }
    {
        !self.is_registered()
            && self.parameters.service != 0
            && !places::has_free(&self.rights.places)
    }

    // The rights with other places.
    #[tactic(auto, unfolding(rights::specs::Rights::with_places))]
    fn with_places(&self, places: [Place; REGISTRATION_PLACES]) -> Rights
        ensures { result ≡ with_places self.now.rights.now places }
    {
        Rights {
            places,
            ..*self.rights
        }
    }

    // The rights after a nexus gave a key, or 0.
    #[tactic(auto, unfolding(rights::specs::Actions::registering))]
    fn registering(&self) -> Rights
        ensures { result ≡ registering self.now.rights.now self.now.nexus self.now.parameters.service }
    {
        let old = &self.rights.places;
        let key = self.parameters.service;
        if self.is_registered() {
            let places = places::rekeyed(old, self.nexus, key);
            return standing::raised(standing::settled(self.with_places(places)));
        }
        if key == 0 {
            return *self.rights;
        }
        standing::raised(self.with_places(places::enrol(old, self.nexus, key)))
    }

    // What both kinds of registering share, once flags and key are tested.
    #[tactic(auto, unfolding(answers::specs::Order::first_of, answers::specs::Order::if_good_by, answers::specs::Order::refuses))]
    fn enter(&self) -> Result<Rights, Answer>
        ensures { result ≡ unless_refused (first (no_place if crowded self.now.rights.now self.now.nexus self.now.parameters ∷ []))
            (registering self.now.rights.now self.now.nexus self.now.parameters.service) }
    {
        if self.crowded() {
            return Err(answers::no_place());
        }
        Ok(self.registering())
    }

    fn register(&self) -> Result<Rights, Answer>
        ensures { result ≡ decided Register self.now.rights.now self.now.nexus self.now.parameters }
    {
        flags_allowed(self.parameters)?;
        if !self.gives_key() {
            return Err(Answer::Conflict);
        }
        self.enter()
    }

    fn register_ignoring(&self) -> Result<Rights, Answer>
        ensures { result ≡ decided RegisterIgnoring self.now.rights.now self.now.nexus self.now.parameters }
    {
        flags_allowed(self.parameters)?;
        self.enter()
    }

    fn reserve(&self) -> Result<Rights, Answer>
        ensures { result ≡ decided Reserve self.now.rights.now self.now.nexus self.now.parameters }
    {
        if self.by_stranger() {
            return Err(Answer::Conflict);
        }
        if self.rights.kind == NO_TYPE {
            return Ok(standing::held(*self.rights, self.parameters.kind, self.nexus));
        }
        if standing::holds(self.rights, self.nexus) && self.rights.kind == self.parameters.kind {
            Ok(*self.rights)
        } else {
            Err(Answer::Conflict)
        }
    }

    fn release(&self) -> Result<Rights, Answer>
        ensures { result ≡ decided Release self.now.rights.now self.now.nexus self.now.parameters }
    {
        if self.by_stranger() {
            return Err(Answer::Conflict);
        }
        if !standing::holds(self.rights, self.nexus) {
            return Ok(*self.rights);
        }
        if self.parameters.kind == self.rights.kind {
            return Ok(standing::ended(*self.rights));
        }
        Err(answers::other_type())
    }

    // The rights with no registration and no reservation.
    #[tactic(auto, unfolding(rights::specs::Actions::clearing))]
    fn clearing(&self) -> Rights
        ensures { result ≡ clearing self.now.rights.now }
    {
        let places = places::emptied(&self.rights.places);
        standing::raised(standing::ended(self.with_places(places)))
    }

    fn clear(&self) -> Result<Rights, Answer>
        ensures { result ≡ decided Clear self.now.rights.now self.now.nexus self.now.parameters }
    {
        if self.by_stranger() {
            return Err(Answer::Conflict);
        }
        Ok(self.clearing())
    }

    // The rights after all with a key are removed.
    #[tactic(auto, unfolding(rights::specs::Actions::preempting))]
    fn preempting(&self) -> Rights
        ensures { result ≡ preempting self.now.rights.now self.now.nexus self.now.parameters.kind self.now.parameters.service }
    {
        let old = &self.rights.places;
        let key = self.parameters.service;
        if standing::holder_key(self.rights) == key {
            let left = self.with_places(places::without(old, key, Some(self.nexus)));
            return standing::raised(standing::held(left, self.parameters.kind, self.nexus));
        }
        let left = self.with_places(places::without(old, key, None));
        standing::raised(standing::settled(left))
    }

    // What PREEMPT with the key 0 decides: where all who are registered hold, the sender takes over from them.
    #[tactic(auto, unfolding(rights::specs::Actions::taking_over, answers::specs::Order::first_of, answers::specs::Order::if_good_by, answers::specs::Order::refuses, fields::specs::Bits::first_byte, fields::specs::Bits::top_bit, fields::specs::Bits::bit_count))]
    fn take_over(&self) -> Result<Rights, Answer>
        ensures { result ≡ unless_refused (first (list_field service_key_bits if not (all_hold self.now.rights.now.kind) ∷ []))
            (taking_over self.now.rights.now self.now.nexus self.now.parameters.kind) }
    {
        if !kinds::all_hold(self.rights.kind) {
            return Err(answers::list_field(SERVICE_KEY_BYTE, 7, 64));
        }
        let left = self.with_places(places::alone(&self.rights.places, self.nexus));
        Ok(standing::raised(standing::held(left, self.parameters.kind, self.nexus)))
    }

    fn preempt(&self) -> Result<Rights, Answer>
        ensures { result ≡ decided Preempt self.now.rights.now self.now.nexus self.now.parameters }
    {
        if self.by_stranger() {
            return Err(Answer::Conflict);
        }
        if self.parameters.service == 0 {
            return self.take_over();
        }
        if !places::is_known(&self.rights.places, self.parameters.service) {
            return Err(Answer::Conflict);
        }
        Ok(self.preempting())
    }
}
