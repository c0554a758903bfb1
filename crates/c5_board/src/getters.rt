//! What a board and a pass are asked.

ghost use Rattle.std.specs.Prelude.{◌≡◌, ◌≤◌, ◌<◌};
ghost use Rattle.c5_definitions.specs.RowIndex.{bucket_count, start_of};
ghost use Rattle.c5_plan.specs.Sizes.{IsPlanned};
ghost use Rattle.c5_board.specs.Boards.{write_count};
ghost use Rattle.c5_board.specs.Passes.{IsSound};

use crate::board::Board;
use crate::pass::BoardPass;
use c5_plan::Plan;
use c5_rows::RowName;

impl<'p> Board<'p> {
    /// The plan of the log.
    pub fn plan(&self) -> &'p Plan<'p>
        ensures log { result.now ≡ self.now.log }
        ensures planned { IsPlanned self.now.log }
    {
        self.plan
    }

    /// The number of workers.
    pub fn workers(&self) -> u32
        ensures value { result ≡ self.now.workers }
        ensures some { 1 ≤ result }
        ensures most { result ≤ max_workers }
    {
        self.workers
    }

    /// The number of writes of the log.
    pub fn writes(&self) -> u32
        ensures value { result ≡ write_count self.now }
        ensures few { result ≤ max_writes }
    {
        self.writes
    }

    /// The number of buckets.
    pub fn buckets(&self) -> u32
        ensures value { result ≡ bucket_count (write_count self.now) }
        ensures more { write_count self.now < result }
        ensures few { result ≤ max_buckets }
    {
        self.buckets
    }

    /// The bucket at which the path of this name begins.
    pub fn start(&self, name: &RowName) -> u32
        ensures value { result ≡ start_of (bucket_count (write_count self.now)) name.now }
        ensures within { result < bucket_count (write_count self.now) }
    {
        (name_hash(name) % self.buckets as u64) as u32
    }
}

ghost use Rattle.std.specs.Prelude.{◌∷◌};
ghost use Rattle.c5_definitions.specs.RowIndex.{fnv_1a};

// FNV-1a of 64 bits, of the table byte and the bytes of the key.
fn name_hash(name: &RowName) -> u64
    ensures { result ≡ fnv_1a (name.now.table ∷ name.now.key) }
{
    let mut hash = hash_round(14_695_981_039_346_656_037, name.table);
    for byte in name.key.bytes() {
        hash = hash_round(hash, *byte);
    }
    hash
}

ghost use Rattle.c5_definitions.specs.RowIndex.{fnv_round};
ghost use Rattle.c5_rows.specs.Sizes.{max_workers, max_writes, max_buckets};

// One round of FNV-1a.
fn hash_round(hash: u64, byte: u8) -> u64
    ensures { result ≡ fnv_round hash byte }
{
    (hash ^ u64::from(byte)).wrapping_mul(1_099_511_628_211)
}

impl BoardPass {
    /// A place that the visible place has reached.
    pub fn place(&self) -> u32
        ensures value { result ≡ self.now.place }
        ensures sound { IsSound self.now }
    {
        self.place
    }
}
