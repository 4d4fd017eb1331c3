// The parts of the page: its header, and one descriptor.
ghost use Rattle.std.specs.Prelude.{◌≡◌, cond, ◌++◌, ◌+◌, ◌*◌, ◌≤◌};
ghost use Rattle.fields.specs.Bytes.{zeros};
ghost use Rattle.fields.specs.Field.{bytes};
ghost use Rattle.runs.specs.Page.{run_bytes};
ghost use Rattle.runs.specs.Runs.{most_run, most_runs, run};

use crate::search::Run;
use fields::numbers;

// The bytes of the header, in front of the descriptors.
pub const HEAD_BYTES: usize = 8;

// The bytes of a descriptor.
pub const RUN_BYTES: usize = 16;

// 0 for mapped blocks, 1 for unmapped ones.
fn status_of(held: bool) -> u8
    ensures { result ≡ cond held 0 1 }
{
    u8::from(!held)
}

pub fn run_bytes(found: Run) -> [u8; RUN_BYTES]
    requires { found.count ≤ most_run }
    ensures { result ≡ run_bytes (run found.start.0 found.count found.held) }
{
    let a = numbers::bytes::<8>(found.start.0);
    let n = numbers::bytes::<4>(found.count);
    let status = status_of(found.held);
    [
        a[0], a[1], a[2], a[3], a[4], a[5], a[6], a[7], n[0], n[1], n[2], n[3], status, 0, 0, 0,
    ]
}

// The length counts what follows it: the other four bytes of the header, and the descriptors.
pub fn head_bytes(count: usize) -> [u8; HEAD_BYTES]
    requires { count ≤ most_runs }
    ensures { result ≡ bytes 4 (4 + 16 * count) ++ zeros 4 }
{
    let n = numbers::bytes::<4>((4 + RUN_BYTES * count) as u64);
    [n[0], n[1], n[2], n[3], 0, 0, 0, 0]
}
