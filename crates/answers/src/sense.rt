// Sense data: what is told of a refusal, in the bytes of the store's format.
ghost use Rattle.std.specs.Prelude.{◌≡◌, ◌≤◌, length};
ghost use Rattle.fields.specs.Bytes.{put};
ghost use Rattle.answers.specs.declared.sense.Detail.TheVariants.{Nothing, Pointer, Address};
ghost use Rattle.answers.specs.Sense.{format_ok, sense_bytes, descriptor_most, detail_of, fixed_bytes, fixed_with, described_with, sense_data, sense_after};

use crate::{Answer, Codes, Refusal, codes_of};
use fields::{bytes, numbers};

// The formats, by their response codes. A format is a number and no enum: C hands one in, the theorems' `Store.format` is that number, and
// `sense_bytes` and `put_refusal` promise what they write for every number.
pub const FIXED: u64 = 0x70;

pub const DESCRIPTOR: u64 = 0x72;

// How many bytes fixed format has, and how many descriptor format has at most.
pub const FIXED_BYTES: usize = 18;

pub const DESCRIPTOR_BYTES: usize = 20;

// The largest address that fixed format has room for.
const MOST_SHOWN: u64 = 0xFFFF_FFFF;

// What sense data tells beside key and codes: nothing; the byte that says into what it points and at which bit, and the number of the byte that it
// points at; or a block address. No `Option`: one match tells all three.
#[derive(Clone, Copy)]
pub enum Detail {
    Nothing,
    Pointer(u8, u16),
    Address(u64),
}

// Whether a number is that of a format.
#[tactic(auto, unfolding(crate::specs::Sense::format_ok))]
pub fn format_ok(format: u64) -> bool
    ensures { result ≡ format_ok format }
{
    matches!(format, FIXED | DESCRIPTOR)
}

// How many bytes a sense buffer must have.
#[tactic(auto, unfolding(crate::specs::Sense::sense_bytes))]
pub fn sense_bytes(format: u64) -> usize
    ensures { result ≡ sense_bytes format }
{
    if format == DESCRIPTOR {
        DESCRIPTOR_BYTES
    } else {
        FIXED_BYTES
    }
}

#[tactic(auto, unfolding(crate::specs::Sense::detail_of))]
fn detail_of(refusal: Refusal) -> Detail
    ensures { result ≡ detail_of refusal }
{
    match refusal {
        Refusal::InvalidField(byte, bit, _) => Detail::Pointer(0xC8 + bit % 8, u16::from(byte)),
        Refusal::ListField(byte, bit, _) => Detail::Pointer(0x88 + bit % 8, u16::from(byte)),
        Refusal::OutOfRange(address) | Refusal::NoRoom(address) => Detail::Address(address),
        Refusal::NotListed
        | Refusal::ListLength
        | Refusal::NoPlace
        | Refusal::OtherType
        | Refusal::RegistrationsPreempted
        | Refusal::ReservationsPreempted
        | Refusal::ReservationsReleased => Detail::Nothing,
    }
}

// ---- fixed format

#[tactic(auto, unfolding(crate::specs::Sense::fixed_bytes, fields::specs::Field::bytes))]
fn fixed_bytes(response: u8, codes: Codes, address: u32, mark: u8, byte: u16) -> [u8; FIXED_BYTES]
    ensures { result ≡ fixed_bytes response codes address mark byte }
{
    let a = numbers::bytes::<4>(u64::from(address));
    let at = numbers::bytes::<2>(u64::from(byte));
    [
        response, 0, codes.key, a[0], a[1], a[2], a[3], 0x0A, 0, 0, 0, 0, codes.asc, codes.ascq, 0,
        mark, at[0], at[1],
    ]
}

// An address that does not fit is left out whole.
#[tactic(auto, unfolding(crate::specs::Sense::fixed_with))]
fn fixed_with(codes: Codes, detail: Detail) -> [u8; FIXED_BYTES]
    ensures { result ≡ fixed_with codes detail }
{
    match detail {
        Detail::Nothing => fixed_bytes(0x70, codes, 0, 0, 0),
        Detail::Pointer(mark, byte) => fixed_bytes(0x70, codes, 0, mark, byte),
        Detail::Address(address) if address <= MOST_SHOWN => fixed_bytes(
            0xF0,
            codes,
            address as u32,
            0,
            0,
        ),
        Detail::Address(_) => fixed_bytes(0x70, codes, 0, 0, 0),
    }
}

// ---- descriptor format

#[tactic(auto, unfolding(crate::specs::Sense::described_with, crate::specs::Sense::header_bytes, crate::specs::Sense::descriptor_of))]
fn header(codes: Codes) -> [u8; 8]
    ensures { result ≡ described_with codes Nothing }
{
    [0x72, codes.key, codes.asc, codes.ascq, 0, 0, 0, 0]
}

#[tactic(auto, unfolding(crate::specs::Sense::described_with, crate::specs::Sense::header_bytes, crate::specs::Sense::descriptor_of, crate::specs::Sense::pointer_descriptor, fields::specs::Field::bytes))]
fn pointing(codes: Codes, mark: u8, byte: u16) -> [u8; 16]
    ensures { result ≡ described_with codes (Pointer mark byte) }
{
    let at = numbers::bytes::<2>(u64::from(byte));
    [
        0x72, codes.key, codes.asc, codes.ascq, 0, 0, 0, 8, 0x02, 0x06, 0, 0, mark, at[0], at[1], 0,
    ]
}

#[tactic(auto, unfolding(crate::specs::Sense::described_with, crate::specs::Sense::header_bytes, crate::specs::Sense::descriptor_of, crate::specs::Sense::address_descriptor, fields::specs::Field::bytes))]
fn addressed(codes: Codes, address: u64) -> [u8; DESCRIPTOR_BYTES]
    ensures { result ≡ described_with codes (Address address) }
{
    let a = numbers::bytes::<8>(address);
    [
        0x72, codes.key, codes.asc, codes.ascq, 0, 0, 0, 12, 0x00, 0x0A, 0x80, 0, a[0], a[1], a[2],
        a[3], a[4], a[5], a[6], a[7],
    ]
}

// The header and the descriptor that there is; what they do not need of the buffer stays.
fn put_described(codes: Codes, detail: Detail, sense: &mut [u8])
    requires { descriptor_most ≤ length sense.old }
    ensures { sense.new ≡ put sense.old 0 (described_with codes detail) }
{
    match detail {
        Detail::Nothing => bytes::put(sense, &header(codes)),
        Detail::Pointer(mark, byte) => bytes::put(sense, &pointing(codes, mark, byte)),
        Detail::Address(address) => bytes::put(sense, &addressed(codes, address)),
    }
}

// ---- either

// The sense of a refusal.
#[tactic(auto, unfolding(crate::specs::Sense::sense_bytes, crate::specs::Sense::sense_data))]
pub fn put_refusal(format: u64, refusal: Refusal, sense: &mut [u8])
    requires { sense_bytes format ≤ length sense.old }
    ensures { sense.new ≡ put sense.old 0 (sense_data format refusal) }
{
    let codes = codes_of(refusal);
    let detail = detail_of(refusal);
    if format == DESCRIPTOR {
        put_described(codes, detail, sense);
    } else {
        bytes::put(sense, &fixed_with(codes, detail));
    }
}

// Puts the sense of a refusal; any other answer leaves the buffer.
#[tactic(auto, unfolding(crate::specs::Sense::sense_after))]
pub fn put_sense(format: u64, answer: Answer, sense: &mut [u8])
    requires { sense_bytes format ≤ length sense.old }
    ensures { sense.new ≡ sense_after format answer sense.old }
{
    if let Answer::Refused(refusal) = answer {
        put_refusal(format, refusal, sense);
    }
}
