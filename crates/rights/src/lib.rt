// Who may do what, as a meaning: registrations, the reservation, the six actions, what is told of them, and what waits for whom.
// No code: the types stand here, what they mean in specs/, the laws in proofs/.
#![tactic(auto)]

// The highest nexus number.
pub const LAST_NEXUS: u64 = 15;

// How many there are.
pub const NEXUSES: usize = 16;

// What can wait for a nexus. Numbers and no enum: they stand in C's record, where any byte may be found.
pub const NO_ATTENTION: u8 = 0;

pub const REGISTRATIONS_PREEMPTED: u8 = 1;

pub const RESERVATIONS_PREEMPTED: u8 = 2;

pub const RESERVATIONS_RELEASED: u8 = 3;

// The types of a reservation, and the type where there is none: numbers, for the same reason.
pub const NO_TYPE: u32 = 0;

pub const WRITE_EXCLUSIVE: u32 = 1;

pub const EXCLUSIVE_ACCESS: u32 = 3;

pub const WRITE_EXCLUSIVE_REGISTRANTS_ONLY: u32 = 5;

pub const EXCLUSIVE_ACCESS_REGISTRANTS_ONLY: u32 = 6;

pub const WRITE_EXCLUSIVE_ALL_REGISTRANTS: u32 = 7;

pub const EXCLUSIVE_ACCESS_ALL_REGISTRANTS: u32 = 8;

// How many registration places there are.
pub const REGISTRATION_PLACES: usize = 8;

// Where the parameter list of PERSISTENT RESERVE OUT has the service action key, and where its flags.
pub const SERVICE_KEY_BYTE: u8 = 8;

pub const FLAGS_BYTE: u8 = 20;

// A registration place; it is used exactly if its key is not 0.
#[repr(C)]
#[derive(Clone, Copy)]
pub struct Place {
    pub nexus: u64,
    pub key: u64,
}

// The registrations, the reservation (NO_TYPE where there is none) and the generation.
#[repr(C)]
#[derive(Clone, Copy)]
pub struct Rights {
    pub places: [Place; REGISTRATION_PLACES],
    pub holder: u64,
    pub generation: u32,
    pub kind: u32,
}

// The service actions of PERSISTENT RESERVE OUT.
#[derive(Clone, Copy)]
pub enum Action {
    Register,
    Reserve,
    Release,
    Clear,
    Preempt,
    RegisterIgnoring,
}

// What a reservation-out call says beside its action: the type, the key, the service action key, and the byte of the flags.
#[derive(Clone, Copy)]
pub struct Parameters {
    pub kind: u32,
    pub key: u64,
    pub service: u64,
    pub flags: u8,
}
