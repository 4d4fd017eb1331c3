// The table of commands: what each operation code and service action stand for.
#![tactic(auto, unfolding(forms::specs::Forms::entry_for, forms::specs::Forms::lookup, forms::specs::Forms::lines, forms::specs::Forms::takes))]

ghost use Rattle.std.specs.Prelude.{◌≡◌, ℕ, Some, None};
ghost use Rattle.forms.specs.Forms.{form_with, form, two, four, listed, entry_for};
ghost use Rattle.forms.specs.declared.Command.TheVariants.{Tells, Moves, Alters};
ghost use Rattle.forms.specs.declared.Test.TheVariants.{Nothing, Protection, Count, Scope, Kind};

use fields::numbers;
use forms::{Code, Command, Field, Form, Move, Tell, Test};
use rights::Action;

// A line of the table: a code whose CDBs are so long, and the row of its service action.
fn line(
    long: usize,
    command: Command,
    address: Option<Field>,
    size: Option<Field>,
    tests: [Test; 3],
) -> Option<Code>
    ensures { result ≡ listed long (Some (form_with command address size tests)) }
{
    let form = Form {
        command,
        address,
        size,
        tests,
    };
    Some(Code {
        long,
        service: Some(form),
    })
}

// A command without field that can be wrong.
fn plain(long: usize, command: Command, size: Option<Field>) -> Option<Code>
    ensures { result ≡ listed long (Some (form command None size Nothing Nothing)) }
{
    line(long, command, None, size, [Test::Nothing; 3])
}

// An action that changes who holds the reservation, and so names its scope and type.
fn typed(action: Action) -> Option<Code>
    ensures { result ≡ listed 10 (Some (form (Alters action) None (four 5) Scope Kind)) }
{
    line(
        10,
        Command::Alters(action),
        None,
        Some(Field::Four(5)),
        [Test::Scope, Test::Kind, Test::Nothing],
    )
}

// READ and WRITE.
fn transfer(long: usize, what: Move, address: Field, size: Field) -> Option<Code>
    ensures { result ≡ listed long (Some (form (Moves what) (Some address) (Some size) Protection Count)) }
{
    line(
        long,
        Command::Moves(what),
        Some(address),
        Some(size),
        [Test::Protection, Test::Count, Test::Nothing],
    )
}

// A listed code with a service action that is not.
fn other(long: usize) -> Option<Code>
    ensures { result ≡ listed long None }
{
    Some(Code {
        long,
        service: None,
    })
}

// An INQUIRY whose page code is held to this test.
fn inquired(what: Tell, page: Test) -> Option<Code>
    ensures { result ≡ listed 6 (Some (form (Tells what) None (two 3) page Nothing)) }
{
    line(
        6,
        Command::Tells(what),
        None,
        Some(Field::Two(3)),
        [page, Test::Nothing, Test::Nothing],
    )
}

// INQUIRY: bit 0 asks for a page of vital product data.
#[tactic(auto, using(forms::proofs::Table::inquiry_entry_law))]
fn inquiry(action: u8) -> Option<Code>
    ensures { result ≡ entry_for 0x12 action }
{
    if numbers::bit(action, 0) {
        inquired(Tell::VitalData, Test::VitalPage)
    } else {
        inquired(Tell::Inquiry, Test::Page)
    }
}

// UNMAP.
fn unmapping() -> Option<Code>
    ensures { (action : ℕ) → result ≡ entry_for 0x42 action }
{
    line(
        10,
        Command::Moves(Move::Unmap),
        None,
        Some(Field::Two(7)),
        [Test::Anchor, Test::Nothing, Test::Nothing],
    )
}

// WRITE SAME(16).
fn writing_same() -> Option<Code>
    ensures { (action : ℕ) → result ≡ entry_for 0x93 action }
{
    line(
        16,
        Command::Moves(Move::WriteSame),
        Some(Field::Eight(2)),
        Some(Field::Four(10)),
        [Test::Protection, Test::SameAnchor, Test::SameCount],
    )
}

// PERSISTENT RESERVE IN.
fn reserve_in(action: u8) -> Option<Code>
    ensures { result ≡ entry_for 0x5E action }
{
    let length = Some(Field::Two(7));
    match action {
        0 => plain(10, Command::Tells(Tell::Keys), length),
        1 => plain(10, Command::Tells(Tell::Reservation), length),
        2..=255 => other(10),
    }
}

// PERSISTENT RESERVE OUT.
fn reserve_out(action: u8) -> Option<Code>
    ensures { result ≡ entry_for 0x5F action }
{
    let length = Some(Field::Four(5));
    match action {
        0 => plain(10, Command::Alters(Action::Register), length),
        1 => typed(Action::Reserve),
        2 => typed(Action::Release),
        3 => plain(10, Command::Alters(Action::Clear), length),
        4 => typed(Action::Preempt),
        6 => plain(10, Command::Alters(Action::RegisterIgnoring), length),
        5 | 7..=255 => other(10),
    }
}

// READ CAPACITY(16) and GET LBA STATUS.
fn service_in(action: u8) -> Option<Code>
    ensures { result ≡ entry_for 0x9E action }
{
    let length = Some(Field::Four(10));
    match action {
        0x10 => plain(16, Command::Tells(Tell::Capacity16), length),
        0x12 => line(
            16,
            Command::Moves(Move::Status),
            Some(Field::Eight(2)),
            length,
            [Test::Nothing; 3],
        ),
        0x00..=0x0F | 0x11 | 0x13..=0xFF => other(16),
    }
}

// The row of an operation code. Its rest, and that of the service actions above, stands as ranges and not as `_`: that form is named for
// "each operation code has its own row of fields".
pub fn entry_for(code: u8, action: u8) -> Option<Code>
    ensures { result ≡ entry_for code action }
{
    match code {
        0x00 => plain(6, Command::Tells(Tell::Ready), None),
        0x12 => inquiry(action),
        0x25 => plain(10, Command::Tells(Tell::Capacity10), None),
        0x28 => transfer(10, Move::Read, Field::Four(2), Field::Two(7)),
        0x2A => transfer(10, Move::Write, Field::Four(2), Field::Two(7)),
        0x42 => unmapping(),
        0x5E => reserve_in(action),
        0x5F => reserve_out(action),
        0x88 => transfer(16, Move::Read, Field::Eight(2), Field::Four(10)),
        0x8A => transfer(16, Move::Write, Field::Eight(2), Field::Four(10)),
        0x93 => writing_same(),
        0x9E => service_in(action),
        0x01..=0x11
        | 0x13..=0x24
        | 0x26..=0x27
        | 0x29
        | 0x2B..=0x41
        | 0x43..=0x5D
        | 0x60..=0x87
        | 0x89
        | 0x8B..=0x92
        | 0x94..=0x9D
        | 0x9F..=0xFF => None,
    }
}
