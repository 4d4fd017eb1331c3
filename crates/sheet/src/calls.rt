// The calls of a good sheet, one after the other on a store that is held here.
ghost use Rattle.std.specs.Prelude.{◌≡◌, true, ◌+◌, ◌*◌, ◌≤◌, ◌<◌, length};
ghost use Rattle.fields.specs.Bytes.{zeros};
ghost use Rattle.answers.specs.Sense.{fixed};
ghost use Rattle.pool.specs.Bounds.{mark_words};
ghost use Rattle.store.specs.Fresh.{fresh_unit};
ghost use Rattle.reply.specs.Contract.{store_of};
ghost use Rattle.contents.specs.Contents.{most_calls, most_bytes, body_end, good_sheet};
ghost use Rattle.lines.specs.Most.{line_most};
ghost use Rattle.sheet.specs.Printed.{capacity, slots};
ghost use Rattle.sheet.specs.Leaves.{out_bytes, Serves, Runs};

use crate::OUT;
use answers::sense::{FIXED, FIXED_BYTES};
use fields::page::Page;
use pool::{BLOCK_BYTES, MARK_WORDS};
use store::Unit;

// 01: "fresh store of capacity 8 and 2 slots, 4,096 bytes of data-in".
const CAPACITY: u64 = 8;

const SLOTS: usize = 2;

const DATA_IN: usize = 4096;

// Call i, whose body begins at a byte of the sheet, and its line. The store's parts are lent one by one, as `commands::execute` takes them.
fn serve(
    unit: &mut Unit,
    owners: &mut [u64],
    marks: &mut [u64],
    medium: &mut [u8],
    sheet: &[u8],
    i: u8,
    at: usize,
    page: &mut Page<OUT>,
)
    requires { (i < most_calls) × (body_end sheet.now i at ≤ length sheet.now) × (length sheet.now ≤ most_bytes)
        × (length page.old + line_most ≤ out_bytes) }
    ensures { Serves sheet.now i at
        (store_of fixed unit.old owners.old marks.old medium.old)
        (store_of fixed unit.new owners.new marks.new medium.new)
        page.old page.new }
{
    let mut data_in = [0u8; DATA_IN];
    let mut sense = [0u8; FIXED_BYTES];
    let nexus = contents::nexus_of(sheet, i);
    let middle = at + contents::cdb_length(sheet, i);
    let last = middle + contents::out_length(sheet, i);
    let outcome = commands::execute(
        FIXED,
        *unit,
        owners,
        marks,
        medium,
        nexus,
        &sheet[at..middle],
        &sheet[middle..last],
        &mut data_in,
        &mut sense,
    );
    *unit = outcome.unit;
    lines::append_line(
        page,
        i as usize + 1,
        outcome.answer,
        outcome.returned,
        &data_in,
    );
}

// The unit of a fresh store.
fn fresh_unit(owners: &mut [u64], marks: &mut [u64]) -> Unit
    requires { (length owners.old ≡ slots) × (length marks.old ≡ mark_words) }
    ensures { (result ≡ fresh_unit capacity) × (owners.new ≡ zeros slots) × (marks.new ≡ zeros mark_words) }
{
    commands::fresh(CAPACITY, FIXED, owners, marks).unwrap()
}

// All calls on a fresh store; their lines are put at the page's end.
pub fn run_calls(sheet: &[u8], page: &mut Page<OUT>)
    requires { (good_sheet sheet.now ≡ true) × (length page.old + most_calls * line_most ≤ out_bytes) }
    ensures { Runs sheet.now page.old page.new }
{
    let mut owners = [0u64; SLOTS];
    let mut marks = [0u64; MARK_WORDS];
    let mut medium = [0u8; BLOCK_BYTES * SLOTS];
    let mut unit = fresh_unit(&mut owners, &mut marks);
    let n = contents::calls_in(sheet);
    let mut at = contents::bodies_begin(sheet);
    for i in 0..n {
        serve(
            &mut unit,
            &mut owners,
            &mut marks,
            &mut medium,
            sheet,
            i,
            at,
            page,
        );
        at = contents::body_end(sheet, i, at);
    }
}
