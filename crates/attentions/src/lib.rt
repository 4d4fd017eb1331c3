// Unit attentions: which are valid, what waits for a nexus, how it is returned, and what an action has wait for others.
// What waits is a number and no enum of its own: it stands in the unit's record, which is C's, and where any byte may be found.
#![tactic(auto)]

ghost use Rattle.std.specs.Prelude.{◌≡◌};
ghost use Rattle.rights.specs.Attentions.{refusal_of, attentions_ok, no_attentions, waiting_for, returned_to};

use answers::Refusal;
use rights::{
    LAST_NEXUS, NEXUSES, NO_ATTENTION, REGISTRATIONS_PREEMPTED, RESERVATIONS_PREEMPTED,
    RESERVATIONS_RELEASED,
};

pub mod notices;

// Nothing waits for anybody.
#[tactic(auto, unfolding(rights::specs::Attentions::no_attentions, fields::specs::Bytes::zeros))]
pub fn none() -> [u8; NEXUSES]
    ensures { result ≡ no_attentions }
{
    [NO_ATTENTION; NEXUSES]
}

// Whether each is one that can wait, or none.
pub fn valid(attentions: &[u8; NEXUSES]) -> bool
    ensures { result ≡ attentions_ok attentions.now }
{
    // every one is looked at, as `all` would not: no way out lets all be compared at once
    attentions.iter().fold(
        true,
        |all, waiting| all & (*waiting <= RESERVATIONS_RELEASED),
    )
}

// What waits for a nexus.
#[tactic(auto, unfolding(rights::specs::Attentions::waiting_for))]
pub fn waiting(attentions: &[u8; NEXUSES], nexus: u64) -> u8
    ensures { result ≡ waiting_for nexus attentions.now }
{
    attentions
        .get(nexus as usize)
        .copied()
        .unwrap_or(NO_ATTENTION)
}

// How what waits is returned.
#[tactic(auto, unfolding(rights::specs::Attentions::refusal_of))]
pub fn refusal_of(waiting: u8) -> Refusal
    ensures { result ≡ refusal_of waiting }
{
    match waiting {
        REGISTRATIONS_PREEMPTED => Refusal::RegistrationsPreempted,
        RESERVATIONS_PREEMPTED => Refusal::ReservationsPreempted,
        _ => Refusal::ReservationsReleased,
    }
}

// The attentions once that of a nexus was returned.
#[tactic(auto, unfolding(rights::specs::Attentions::returned_to))]
pub fn returned_to(attentions: [u8; NEXUSES], nexus: u64) -> [u8; NEXUSES]
    ensures { result ≡ returned_to nexus attentions }
{
    let mut after = attentions;
    if nexus <= LAST_NEXUS {
        after[nexus as usize] = NO_ATTENTION;
    }
    after
}
