// Decoding a CDB, once: what the table has for it, whether its fields are right, and the request that it makes.
#![tactic(auto)]

ghost use Rattle.std.specs.Prelude.{◌≡◌, ◌≤◌, ◌<◌};
ghost use Rattle.fields.specs.Bits.{whole};
ghost use Rattle.answers.specs.Answers.{invalid_field};
ghost use Rattle.answers.specs.Order.{first};
ghost use Rattle.rights.specs.Rights.{is_one_of, is_type};
ghost use Rattle.forms.specs.Forms.{entry_of, span_bits, number, request_by, asks, asked_by};
ghost use Rattle.forms.specs.Tests.{pages, wrong_in, check_rows, check_of, test_checks, code_checks};
ghost use Rattle.decoder.specs.Decoding.{decoded};

use answers::Answer;
use fields::numbers;
use forms::{Code, Field, Form, Request, Test};
use pool::{Lba, MOST_TRANSFER};
use rights::{
    EXCLUSIVE_ACCESS, EXCLUSIVE_ACCESS_ALL_REGISTRANTS, EXCLUSIVE_ACCESS_REGISTRANTS_ONLY,
    WRITE_EXCLUSIVE, WRITE_EXCLUSIVE_ALL_REGISTRANTS, WRITE_EXCLUSIVE_REGISTRANTS_ONLY,
};

mod codes;

// What the table has for a CDB.
#[tactic(auto, unfolding(forms::specs::Forms::entry_of, forms::specs::Forms::action, fields::specs::Bits::number_in))]
pub fn entry_of(cdb: &[u8]) -> Option<Code>
    ensures { result ≡ entry_of cdb.now }
{
    let code = numbers::byte(cdb, 0);
    let action = numbers::byte(cdb, 1) % 32;
    codes::entry_for(code, action)
}

// The bytes of a number: the first, and how many; where there is no number, no bytes.
#[tactic(auto, unfolding(forms::specs::Forms::bytes_of, forms::specs::Forms::span_bits))]
fn bytes_of(field: Option<Field>) -> (u8, u8)
    ensures place { whole result.0 result.1 ≡ span_bits field }
    ensures within { result.1 ≤ 8 }
{
    match field {
        None => (0, 0),
        Some(Field::Two(at)) => (at, 2),
        Some(Field::Four(at)) => (at, 4),
        Some(Field::Eight(at)) => (at, 8),
    }
}

// The number that stands there; 0 where there is none.
#[tactic(auto, unfolding(forms::specs::Forms::number, fields::specs::Bits::number_in))]
fn number_at(field: Option<Field>, cdb: &[u8]) -> u64
    ensures { result ≡ number field cdb.now }
{
    let (at, bytes) = bytes_of(field);
    numbers::number(cdb, usize::from(at), usize::from(bytes))
}

#[tactic(auto, unfolding(forms::specs::Forms::request_by, fields::specs::Bits::number_in, fields::specs::Field::field))]
fn request_of(form: Form, cdb: &[u8]) -> Request
    ensures { result ≡ request_by form cdb.now }
{
    let page = numbers::byte(cdb, 2);
    Request {
        command: form.command,
        address: Lba(number_at(form.address, cdb)),
        size: number_at(form.size, cdb),
        kind: u32::from(page % 16),
        page,
        options: numbers::byte(cdb, 1),
    }
}

// One of the six types of a reservation, all by name: which of them one nexus holds, and which all do, is told apart by the rights.
#[tactic(auto, unfolding(rights::specs::Rights::is_type, rights::specs::Rights::is_one_of))]
fn is_type(kind: u8) -> bool
    ensures { result ≡ is_type kind }
{
    matches!(
        u32::from(kind),
        WRITE_EXCLUSIVE
            | EXCLUSIVE_ACCESS
            | WRITE_EXCLUSIVE_REGISTRANTS_ONLY
            | EXCLUSIVE_ACCESS_REGISTRANTS_ONLY
            | WRITE_EXCLUSIVE_ALL_REGISTRANTS
            | EXCLUSIVE_ACCESS_ALL_REGISTRANTS
    )
}

// One of the pages of vital product data.
#[tactic(auto, unfolding(forms::specs::Tests::pages, rights::specs::Rights::is_one_of))]
fn is_page(code: u8) -> bool
    ensures { result ≡ is_one_of code pages }
{
    matches!(code, 0x00 | 0xB0 | 0xB2)
}

// Whether the field of a test is wrong, where `size` is the number in `field`, the count, allocation length or list length.
#[tactic(auto, unfolding(forms::specs::Tests::wrong_in, forms::specs::Tests::check_of, forms::specs::Tests::is_set, forms::specs::Tests::not_zero, forms::specs::Forms::number, fields::specs::Bits::number_in, fields::specs::Field::field, fields::specs::Field::bit))]
fn is_wrong(test: Test, field: Option<Field>, size: u64, cdb: &[u8]) -> bool
    requires { size ≡ number field cdb.now }
    ensures { result ≡ wrong_in (check_of test field) cdb.now }
{
    match test {
        Test::Nothing => false,
        Test::Page => numbers::byte(cdb, 2) != 0,
        Test::VitalPage => !is_page(numbers::byte(cdb, 2)),
        Test::Protection => numbers::byte(cdb, 1) / 32 % 8 != 0,
        Test::Count => (MOST_TRANSFER as u64) < size,
        Test::Anchor => numbers::bit(numbers::byte(cdb, 1), 0),
        Test::SameAnchor => numbers::bit(numbers::byte(cdb, 1), 4),
        Test::SameCount => (size == 0) | ((MOST_TRANSFER as u64) < size),
        Test::Scope => numbers::byte(cdb, 2) / 16 % 16 != 0,
        Test::Kind => !is_type(numbers::byte(cdb, 2) % 16),
    }
}

// The refusal of a number, which stands in whole bytes.
#[tactic(auto, unfolding(fields::specs::Bits::first_byte, fields::specs::Bits::top_bit, fields::specs::Bits::bit_count))]
fn number_refusal(field: Option<Field>) -> Answer
    ensures { result ≡ invalid_field (span_bits field) }
{
    let (at, bytes) = bytes_of(field);
    answers::invalid_field(at, 7, bytes * 8)
}

// The refusal of a test, which names its field: the first byte, the highest bit, how many bits.
#[tactic(auto, unfolding(forms::specs::Tests::check_of, fields::specs::Bits::first_byte, fields::specs::Bits::top_bit, fields::specs::Bits::bit_count))]
fn refusal(test: Test, field: Option<Field>) -> Answer
    ensures { result ≡ invalid_field (check_of test field).bits }
{
    match test {
        Test::Nothing => answers::invalid_field(0, 7, 0),
        Test::Page | Test::VitalPage => answers::invalid_field(2, 7, 8),
        Test::Protection => answers::invalid_field(1, 7, 3),
        Test::Count | Test::SameCount => number_refusal(field),
        Test::Anchor => answers::invalid_field(1, 0, 1),
        Test::SameAnchor => answers::invalid_field(1, 4, 1),
        Test::Scope => answers::invalid_field(2, 7, 4),
        Test::Kind => answers::invalid_field(2, 3, 4),
    }
}

// The request of a row whose fields are right.
fn tested(form: Form, cdb: &[u8]) -> Result<Request, Answer>
    ensures { result ≡ decoded (first (check_rows (test_checks form) cdb.now)) (asks (request_by form cdb.now)) }
{
    let request = request_of(form, cdb);
    for test in form.tests {
        if is_wrong(test, form.size, request.size, cdb) {
            return Err(refusal(test, form.size));
        }
    }
    Ok(request)
}

// The request of a CDB as long as its code has it: the control byte, then the fields of its row. The control byte and the service action are
// asked for at once: a branch of its own for each slows what is served.
pub fn request(code: Code, cdb: &[u8]) -> Result<Request, Answer>
    requires { (1 ≤ code.long) × (code.long ≤ 16) }
    ensures { result ≡ decoded (first (check_rows (code_checks code) cdb.now)) (asked_by code.service cdb.now) }
{
    let last = code.long - 1;
    let control = numbers::bit(numbers::byte(cdb, last), 2);
    if control | code.service.is_none() {
        if control {
            return Err(answers::invalid_field(last as u8, 2, 1));
        }
        return Err(answers::invalid_field(1, 4, 5));
    }
    match code.service {
        Some(form) => tested(form, cdb),
        None => unreachable!(),
    }
}
