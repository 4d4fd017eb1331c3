// Who may do what: the registration places and the rights as a whole.
#![tactic(auto)]

pub mod kinds;
pub mod places;
pub mod standing;
