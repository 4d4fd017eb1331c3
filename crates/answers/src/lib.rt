// What a call answers: GOOD, a refusal with its sense, a reservation conflict, or no status at all.
#![tactic(auto)]

ghost use Rattle.std.specs.Prelude.{◌≡◌};
ghost use Rattle.answers.specs.declared.Answer.TheVariants.{Refused};
ghost use Rattle.answers.specs.declared.Refusal.TheVariants.{InvalidField, ListField};
ghost use Rattle.answers.specs.Answers.{codes, codes_of, number_of, status_of};
ghost use Rattle.answers.specs.Answers.{not_listed, out_of_range, list_length, no_place, other_type, no_room};

pub mod sense;

// The refusals that come with sense: each has one row in the table of answers. Two name the wrong field, of the CDB or of the parameter list, by
// its first byte, its highest bit and how many bits it has. Sense has no room for the last; it is there so that one field is named and no other.
// Two name a block: where the range begins that reaches past the capacity, or that is not to be written for lack of slots. The last three are what
// can wait for a nexus, and share a number.
#[derive(Clone, Copy)]
pub enum Refusal {
    NotListed,
    InvalidField(u8, u8, u8),
    OutOfRange(u64),
    ListLength,
    ListField(u8, u8, u8),
    NoPlace,
    OtherType,
    NoRoom(u64),
    RegistrationsPreempted,
    ReservationsPreempted,
    ReservationsReleased,
}

// A row of that table: 01's number, the sense key, the additional sense code and its qualifier.
#[derive(Clone, Copy)]
pub struct Codes {
    pub number: u64,
    pub key: u8,
    pub asc: u8,
    pub ascq: u8,
}

// What a call is answered. GOOD is one of the answers and no `Ok`, and the case that refuses holds what its sense is made of: that form is named for
// the answers, and the theorems speak of all five.
#[derive(Clone, Copy)]
pub enum Answer {
    Good,
    Refused(Refusal),
    Conflict,
    Unusable,
    Short,
}

// 1: operation code not listed.
pub fn not_listed() -> Answer
    ensures { result ≡ not_listed }
{
    Answer::Refused(Refusal::NotListed)
}

// 2: a field of the CDB, by its first byte, its highest bit and how many bits it has.
pub fn invalid_field(byte: u8, bit: u8, bits: u8) -> Answer
    ensures { result ≡ Refused (InvalidField byte bit bits) }
{
    Answer::Refused(Refusal::InvalidField(byte, bit, bits))
}

// 3: block address + count > capacity, by the address.
pub fn out_of_range(address: u64) -> Answer
    ensures { result ≡ out_of_range address }
{
    Answer::Refused(Refusal::OutOfRange(address))
}

// 4: parameter list length.
pub fn list_length() -> Answer
    ensures { result ≡ list_length }
{
    Answer::Refused(Refusal::ListLength)
}

// 5: a field of the parameter list, in the same way.
pub fn list_field(byte: u8, bit: u8, bits: u8) -> Answer
    ensures { result ≡ Refused (ListField byte bit bits) }
{
    Answer::Refused(Refusal::ListField(byte, bit, bits))
}

// 6: new registration, all 8 places used.
pub fn no_place() -> Answer
    ensures { result ≡ no_place }
{
    Answer::Refused(Refusal::NoPlace)
}

// 7: holder's RELEASE names another type.
pub fn other_type() -> Answer
    ensures { result ≡ other_type }
{
    Answer::Refused(Refusal::OtherType)
}

// 8: more unmapped blocks in a write than free slots, by the address.
pub fn no_room(address: u64) -> Answer
    ensures { result ≡ no_room address }
{
    Answer::Refused(Refusal::NoRoom(address))
}

// The number of each answer.
#[tactic(auto, unfolding(crate::specs::Answers::number_of))]
pub fn number_of(answer: Answer) -> u64
    ensures { result ≡ number_of answer }
{
    match answer {
        Answer::Good => 0,
        Answer::Refused(refusal) => codes_of(refusal).number,
        Answer::Conflict => 10,
        Answer::Unusable => 11,
        Answer::Short => 12,
    }
}

fn row(number: u64, key: u8, asc: u8, ascq: u8) -> Codes
    ensures { result ≡ codes number key asc ascq }
{
    Codes {
        number,
        key,
        asc,
        ascq,
    }
}

// The table of answers that come with sense.
#[tactic(auto, unfolding(crate::specs::Answers::codes_of))]
pub fn codes_of(refusal: Refusal) -> Codes
    ensures { result ≡ codes_of refusal }
{
    match refusal {
        Refusal::NotListed => row(1, 0x05, 0x20, 0x00),
        Refusal::InvalidField(..) => row(2, 0x05, 0x24, 0x00),
        Refusal::OutOfRange(..) => row(3, 0x05, 0x21, 0x00),
        Refusal::ListLength => row(4, 0x05, 0x1A, 0x00),
        Refusal::ListField(..) => row(5, 0x05, 0x26, 0x00),
        Refusal::NoPlace => row(6, 0x05, 0x55, 0x04),
        Refusal::OtherType => row(7, 0x05, 0x26, 0x04),
        Refusal::NoRoom(..) => row(8, 0x07, 0x27, 0x07),
        Refusal::RegistrationsPreempted => row(13, 0x06, 0x2A, 0x05),
        Refusal::ReservationsPreempted => row(13, 0x06, 0x2A, 0x03),
        Refusal::ReservationsReleased => row(13, 0x06, 0x2A, 0x04),
    }
}

// The status byte that a transport would carry, where the answer has one.
#[tactic(auto, unfolding(crate::specs::Answers::status_of))]
pub fn status_of(answer: Answer) -> Option<u8>
    ensures { result ≡ status_of answer }
{
    match answer {
        Answer::Good => Some(0x00),
        Answer::Refused(_) => Some(0x02),
        Answer::Conflict => Some(0x18),
        Answer::Unusable | Answer::Short => None,
    }
}
