// Notices: what an action has wait for others, by the rights that it found and those that it left.
ghost use Rattle.std.specs.Prelude.{◌≡◌};
ghost use Rattle.rights.specs.Notices.{removed, for_registrants, released, release_notice, notice, renewed, notified};

use reservations::places;
use rights::{
    Action, EXCLUSIVE_ACCESS_ALL_REGISTRANTS, EXCLUSIVE_ACCESS_REGISTRANTS_ONLY, NEXUSES,
    NO_ATTENTION, REGISTRATIONS_PREEMPTED, RESERVATIONS_PREEMPTED, RESERVATIONS_RELEASED, Rights,
    WRITE_EXCLUSIVE_ALL_REGISTRANTS, WRITE_EXCLUSIVE_REGISTRANTS_ONLY,
};

// Whether a type is for registrants, only or all.
#[tactic(auto, unfolding(rights::specs::Notices::for_registrants, rights::specs::Rights::is_one_of))]
fn for_registrants(kind: u32) -> bool
    ensures { result ≡ for_registrants kind }
{
    matches!(
        kind,
        WRITE_EXCLUSIVE_REGISTRANTS_ONLY
            | EXCLUSIVE_ACCESS_REGISTRANTS_ONLY
            | WRITE_EXCLUSIVE_ALL_REGISTRANTS
            | EXCLUSIVE_ACCESS_ALL_REGISTRANTS
    )
}

// An action of a sender: the rights that it found, and those that it left.
#[derive(Clone, Copy)]
struct Deed<'a> {
    action: Action,
    before: &'a Rights,
    after: &'a Rights,
    sender: u64,
}

impl Deed<'_> {
    // Whether the registration of a nexus is removed.
    #[tactic(auto, unfolding(rights::specs::Notices::removed))]
    fn removes(&self, nexus: u64) -> bool
        ensures { result ≡ removed self.now.before.now self.now.after.now nexus }
    {
        places::is_registered(&self.before.places, nexus)
            && !places::is_registered(&self.after.places, nexus)
    }

    // Whether a reservation for registrants has ended, or changed its type.
    #[tactic(auto, unfolding(rights::specs::Notices::released))]
    fn releases(&self) -> bool
        ensures { result ≡ released self.now.before.now self.now.after.now }
    {
        for_registrants(self.before.kind) && self.after.kind != self.before.kind
    }

    // What a nexus that stays registered is told where it has.
    #[tactic(auto, unfolding(rights::specs::Notices::release_notice))]
    fn release_notice(&self, nexus: u64) -> u8
        ensures { result ≡ release_notice self.now.before.now self.now.after.now nexus }
    {
        if self.releases() && places::is_registered(&self.after.places, nexus) {
            RESERVATIONS_RELEASED
        } else {
            NO_ATTENTION
        }
    }

    // What a nexus is to be told of another's action.
    #[tactic(auto, unfolding(rights::specs::Notices::notice))]
    fn notice(&self, nexus: u64) -> u8
        ensures { result ≡ notice self.now.action self.now.before.now self.now.after.now nexus }
    {
        match self.action {
            Action::Register | Action::RegisterIgnoring | Action::Release => {
                self.release_notice(nexus)
            }
            Action::Reserve => NO_ATTENTION,
            Action::Clear if self.removes(nexus) => RESERVATIONS_PREEMPTED,
            Action::Clear => NO_ATTENTION,
            Action::Preempt if self.removes(nexus) => REGISTRATIONS_PREEMPTED,
            Action::Preempt => self.release_notice(nexus),
        }
    }

    // What waits for a nexus after the action, where `old` waited before.
    #[tactic(auto, unfolding(rights::specs::Notices::renewed))]
    fn renewed(&self, nexus: u64, old: u8) -> u8
        ensures { result ≡ renewed self.now.action self.now.before.now self.now.after.now self.now.sender nexus old }
    {
        if nexus == self.sender {
            return old;
        }
        let new = self.notice(nexus);
        if new == NO_ATTENTION { old } else { new }
    }
}

// What waits for each after an action of the sender.
pub fn send(
    action: Action,
    before: &Rights,
    after: &Rights,
    sender: u64,
    attentions: [u8; NEXUSES],
) -> [u8; NEXUSES]
    ensures { result ≡ notified action before.now after.now sender attentions }
{
    let deed = Deed {
        action,
        before,
        after,
        sender,
    };
    let mut all = attentions;
    // By number: the place of an attention is the nexus that `renewed` asks about.
    for nexus in 0..NEXUSES {
        all[nexus] = deed.renewed(nexus as u64, all[nexus]);
    }
    all
}
