// The conflict table, as docs/CONFLICTS.md shows it: a row for each command, a column for each reservation and sender. It is looked up.
#![tactic(auto)]

ghost use Rattle.std.specs.Prelude.{◌≡◌, cond, Some};
ghost use Rattle.rights.specs.Places.{registered};
ghost use Rattle.store.specs.Conflict.{registered_nexus, row, column_of, conflict};
ghost use Rattle.conflict.specs.Rows.{number_of, somewhere};

use forms::{Command, Move, Tell};
use reservations::{places, standing};
use rights::{
    EXCLUSIVE_ACCESS, EXCLUSIVE_ACCESS_ALL_REGISTRANTS, EXCLUSIVE_ACCESS_REGISTRANTS_ONLY, Rights,
    WRITE_EXCLUSIVE, WRITE_EXCLUSIVE_ALL_REGISTRANTS, WRITE_EXCLUSIVE_REGISTRANTS_ONLY,
};

const ALLOWED: bool = false;

const CONFLICT: bool = true;

// RR are the types for registrants only and for all registrants.
const TABLE: [[bool; 5]; 12] = [
    // from any nexus: Write Exclusive, Exclusive Access; from a registered nexus: RR; from a nexus not registered: Write Exclusive - RR,
    // Exclusive Access - RR
    [ALLOWED, CONFLICT, ALLOWED, ALLOWED, CONFLICT], // GET LBA STATUS
    [ALLOWED, ALLOWED, ALLOWED, ALLOWED, ALLOWED], // INQUIRY
    [ALLOWED, ALLOWED, ALLOWED, ALLOWED, ALLOWED], // PERSISTENT RESERVE IN, READ KEYS
    [ALLOWED, ALLOWED, ALLOWED, ALLOWED, ALLOWED], // PERSISTENT RESERVE IN, READ RESERVATION
    [ALLOWED, ALLOWED, ALLOWED, ALLOWED, ALLOWED], // PERSISTENT RESERVE OUT
    [ALLOWED, CONFLICT, ALLOWED, ALLOWED, CONFLICT], // READ
    [ALLOWED, ALLOWED, ALLOWED, ALLOWED, ALLOWED], // READ CAPACITY (10)
    [ALLOWED, ALLOWED, ALLOWED, ALLOWED, ALLOWED], // READ CAPACITY (16)
    [ALLOWED, ALLOWED, ALLOWED, ALLOWED, ALLOWED], // TEST UNIT READY
    [CONFLICT, CONFLICT, ALLOWED, CONFLICT, CONFLICT], // UNMAP
    [CONFLICT, CONFLICT, ALLOWED, CONFLICT, CONFLICT], // WRITE
    [CONFLICT, CONFLICT, ALLOWED, CONFLICT, CONFLICT], // WRITE SAME
];

// The columns, from the left. A column is a place in a row: cells are looked up by it.
const ANY_WRITE_EXCLUSIVE: usize = 0;

const ANY_EXCLUSIVE_ACCESS: usize = 1;

const REGISTERED: usize = 2;

const OTHER_WRITE_EXCLUSIVE: usize = 3;

const OTHER_EXCLUSIVE_ACCESS: usize = 4;

// The number of a command's row.
#[tactic(auto, unfolding(crate::specs::Rows::number_of))]
fn number_of(command: Command) -> usize
    ensures { result ≡ number_of command }
{
    match command {
        Command::Moves(Move::Status) => 0,
        Command::Tells(Tell::Inquiry | Tell::VitalData) => 1,
        Command::Tells(Tell::Keys) => 2,
        Command::Tells(Tell::Reservation) => 3,
        Command::Alters(_) => 4,
        Command::Moves(Move::Read) => 5,
        Command::Tells(Tell::Capacity10) => 6,
        Command::Tells(Tell::Capacity16) => 7,
        Command::Tells(Tell::Ready) => 8,
        Command::Moves(Move::Unmap) => 9,
        Command::Moves(Move::Write) => 10,
        Command::Moves(Move::WriteSame) => 11,
    }
}

// A command's row.
#[tactic(auto, using(crate::proofs::TableLaws::number_listed, crate::proofs::TableLaws::row_there), unfolding(crate::proofs::TableLaws::table, store::specs::Conflict::row))]
fn row_of(command: Command) -> [bool; 5]
    ensures { result ≡ row command }
{
    TABLE[number_of(command)]
}

// Whether a row stops anybody. All cells at once: each command passes here, and a search would branch at each cell.
#[tactic(auto, unfolding(crate::specs::Rows::somewhere))]
fn stops_anybody(row: [bool; 5]) -> bool
    ensures { result ≡ somewhere row }
{
    row[0] | row[1] | row[2] | row[3] | row[4]
}

// The column of a registered nexus, or else this one.
fn registered_or(rights: &Rights, nexus: u64, column: usize) -> usize
    ensures { Some result ≡ cond (registered nexus rights.now.places) registered_nexus (Some column) }
{
    if places::is_registered(&rights.places, nexus) {
        REGISTERED
    } else {
        column
    }
}

// The column of a sender.
fn column_of(rights: &Rights, nexus: u64) -> Option<usize>
    ensures { result ≡ column_of rights.now nexus }
{
    if standing::holds(rights, nexus) {
        return None;
    }
    match rights.kind {
        WRITE_EXCLUSIVE => Some(ANY_WRITE_EXCLUSIVE),
        EXCLUSIVE_ACCESS => Some(ANY_EXCLUSIVE_ACCESS),
        WRITE_EXCLUSIVE_REGISTRANTS_ONLY | WRITE_EXCLUSIVE_ALL_REGISTRANTS => {
            Some(registered_or(rights, nexus, OTHER_WRITE_EXCLUSIVE))
        }
        EXCLUSIVE_ACCESS_REGISTRANTS_ONLY | EXCLUSIVE_ACCESS_ALL_REGISTRANTS => {
            Some(registered_or(rights, nexus, OTHER_EXCLUSIVE_ACCESS))
        }
        _ => None,
    }
}

// Whether the reservation stops a command of a nexus.
pub fn conflicts(command: Command, rights: &Rights, nexus: u64) -> bool
    ensures { result ≡ conflict rights.now nexus command }
{
    let row = row_of(command);
    // Saves the search for the sender's registration.
    if !stops_anybody(row) {
        return ALLOWED;
    }
    match column_of(rights, nexus) {
        None => ALLOWED,
        Some(at) => row[at],
    }
}
