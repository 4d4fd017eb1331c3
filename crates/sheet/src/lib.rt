// Call sheets: which are good, and what one prints when its calls are run on a fresh store of capacity 8 and 2 slots.
#![tactic(auto)]

mod calls;

ghost use Rattle.std.specs.Prelude.{◌≡◌, ◌≤◌, length};
ghost use Rattle.sheet.specs.Printed.{printed};
ghost use Rattle.sheet.specs.Leaves.{out_bytes};

use fields::page::Page;

// More than a heading of 37 bytes and 32 lines of 90.
pub const OUT: usize = 4096;

// What the sheet prints.
#[tactic(auto, using(crate::proofs::CallLaws::printed_good, crate::proofs::CallLaws::printed_bad), unfolding(crate::specs::Printed::heading, crate::specs::Printed::bad_sheet))]
pub fn run(sheet: &[u8]) -> Page<OUT>
    ensures { (result ≡ printed sheet.now) × (length result ≤ out_bytes) }
{
    let mut page = Page::new();
    if contents::is_good(sheet) {
        page.append(b"call,answer,status,sense,length,data\n");
        calls::run_calls(sheet, &mut page);
    } else {
        page.append(b"bad sheet\n");
    }
    page
}
