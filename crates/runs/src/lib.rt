// The runs of the map, and the page that tells them.
#![tactic(auto)]

ghost use Rattle.std.specs.Prelude.{◌≡◌, ◌≤◌, ◌<◌, length};
ghost use Rattle.fields.specs.Bytes.{put};
ghost use Rattle.pool.specs.Bounds.{most_blocks, most_slots};
ghost use Rattle.runs.specs.Page.{runs_bytes, status_data};
ghost use Rattle.runs.specs.Runs.{most_runs, runs_from};

use pool::Lba;

mod page;
mod search;

// The bytes of a page with the most descriptors.
pub const PAGE_BYTES: usize = 520;

// The most descriptors that a page tells.
pub const MOST_RUNS: usize = 32;

// The most blocks that one descriptor tells.
pub const MOST_RUN: u64 = 0xFFFF_FFFF;

// The map as the page tells it, lent: no more blocks and no more slots than a store can have. Its methods take it by value: by reference each run
// costs an instruction more.
#[derive(Clone, Copy)]
pub struct Map<'a> {
    pub capacity: u64,
    pub owners: &'a [u64],
    pub ghost blocks: { capacity ≤ most_blocks },
    pub ghost slots: { length owners.now ≤ most_slots },
}

impl Map<'_> {
    // The descriptors of the runs from `lba` on, from byte 8 of `page` on; how many they are. The kind that a run is likely to have is
    // tried first, so that most runs cost one pass over the slots.
    fn put_runs(self, lba: Lba, page: &mut [u8]) -> usize
        requires { (lba.0 < self.capacity) × (length page.old ≡ 520) }
        ensures { (result ≡ length (runs_from self.entry.capacity self.entry.owners.now lba.0 most_runs))
            × (page.new ≡ put page.old 8 (runs_bytes (runs_from self.entry.capacity self.entry.owners.now lba.0 most_runs))) }
    {
        let mut a = lba.0;
        let mut likely = false;
        // By number: it is how many runs there are, and gives the place of each.
        for count in 0..MOST_RUNS {
            if a >= self.capacity {
                return count;
            }
            let found = self.next_run(Lba(a), likely);
            let at = page::HEAD_BYTES + page::RUN_BYTES * count;
            page[at..at + page::RUN_BYTES].copy_from_slice(&page::run_bytes(found));
            a += found.count;
            likely = found.next;
        }
        MOST_RUNS
    }

    // The first bytes of `page` become what GET LBA STATUS tells of the map from `lba` on; how many they are. The page is lent, also
    // as a part of a larger buffer: one that is returned with its length is copied, some 200 instructions of each call.
    #[tactic(auto, using(crate::proofs::RunLaws::length_runs))]
    pub fn put_status(self, lba: Lba, page: &mut [u8]) -> usize
        requires { (lba.0 < self.capacity) × (length page.old ≡ 520) }
        ensures { (result ≡ length (status_data self.entry.capacity self.entry.owners.now lba.0))
            × (page.new ≡ put page.old 0 (status_data self.entry.capacity self.entry.owners.now lba.0)) }
    {
        let count = self.put_runs(lba, page);
        page[..page::HEAD_BYTES].copy_from_slice(&page::head_bytes(count));
        page::HEAD_BYTES + page::RUN_BYTES * count
    }
}
