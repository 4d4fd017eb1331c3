// The table of commands, as a meaning: what an operation code and service action stand for, which fields of a CDB can be wrong, and the
// request that a CDB makes. No code: the types stand here, the table and the tests in specs/, their laws in proofs/.
#![tactic(auto)]

use pool::Lba;
use rights::Action;

// Commands that tell what everybody may know, and change nothing.
#[derive(Clone, Copy)]
pub enum Tell {
    Ready,
    Inquiry,
    VitalData,
    Capacity10,
    Capacity16,
    Keys,
    Reservation,
}

// Commands on the blocks and their map, guarded by the reservation.
#[derive(Clone, Copy)]
pub enum Move {
    Read,
    Write,
    WriteSame,
    Unmap,
    Status,
}

// What a command is: one that tells, one that moves blocks, or one that alters the rights.
#[derive(Clone, Copy)]
pub enum Command {
    Tells(Tell),
    Moves(Move),
    Alters(Action),
}

// A number in a CDB: in the two, four or eight bytes from one on. No other width can be named, so each number fits 64 bits.
#[derive(Clone, Copy)]
pub enum Field {
    Two(u8),
    Four(u8),
    Eight(u8),
}

// A field of a CDB that can be wrong. A name and no closure: the table of commands is data, of which the laws speak row by row.
#[derive(Clone, Copy)]
pub enum Test {
    Nothing,
    Page,
    VitalPage,
    Protection,
    Count,
    Anchor,
    SameAnchor,
    SameCount,
    Scope,
    Kind,
}

// The row of a command: which it is, where its block address stands and its count, allocation length or list length, if it has them, and
// which of its fields can be wrong, in the order of the tests: three, `Nothing` where there are fewer, in memory of a fixed size.
#[derive(Clone, Copy)]
pub struct Form {
    pub command: Command,
    pub address: Option<Field>,
    pub size: Option<Field>,
    pub tests: [Test; 3],
}

// What a listed code has: how long its CDBs are, and the row of its service action, if the action is listed.
#[derive(Clone, Copy)]
pub struct Code {
    pub long: usize,
    pub service: Option<Form>,
}

// What a CDB asks for: the command, its block address, its count, allocation length or list length, the type of reservation it names, the
// page code of INQUIRY, and the byte whose bits say how WRITE SAME is meant.
#[derive(Clone, Copy)]
pub struct Request {
    pub command: Command,
    pub address: Lba,
    pub size: u64,
    pub kind: u32,
    pub page: u8,
    pub options: u8,
}
