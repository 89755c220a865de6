// The rows of an archive, by node and then place: which of them may be taken, those of filled places; which are; and the elimination of these.
ghost use Rattle.std.specs.Prelude.{◌≡◌, false, ℕ, ◌<◌, ◌≤◌, length};
ghost use Rattle.sizes.specs.Sizes.{sizes_outside};
ghost use Rattle.sizes.specs.Lengths.{header_length, place_count};
ghost use Rattle.lists.specs.Lists.{at};
ghost use Rattle.linear.specs.PrivateElimination.{cells, Reduces};
ghost use Rattle.choice.specs.PrivateChoice.{offered, listed_rows, WholeChoice};
ghost use Rattle.archive.specs.Layout.{mark_at};
ghost use Rattle.archive.specs.Read.{row_in};
ghost use Rattle.reading.specs.PrivateRows.{RowsIn};

use archive::Records;
use choice::{Candidates, Chosen, Rows};
use linear::Reduced;
use sizes::Sizes;
use std::array;

// Where the rows of an archive stand.
fn rows_in(records: Records<'_>) -> Rows<'_>
    ensures { let records = records.entry in RowsIn records.z records.bytes.now result }
{
    let z = records.z;
    Rows {
        bytes: records.bytes,
        start: sizes::HEADER_LENGTH + z.n,
        stride: sizes::record_length(z),
        count: z.nodes * z.places,
        m: z.m,
    }
}

// Which places are filled.
pub fn marks(archive: &[u8], z: Sizes) -> [bool; 48]
    requires { (sizes_outside z ≡ false) × (header_length ≤ length archive.now) }
    ensures { let archive = archive.entry.now in
        ((k : ℕ) → k < place_count z → offered result k ≡ mark_at archive k) }
{
    array::from_fn(|k| archive::marked(archive, k))
}

// The places taken among the candidates.
pub fn take<C: Candidates>(records: Records<'_>, candidates: C) -> Chosen
    ensures { let records = records.entry in
        let z = records.z in
        WholeChoice (place_count z) z.m (row_in z records.bytes.now) (offered (C.marked candidates)) result }
{
    rows_in(records).choose(candidates)
}

// Elimination of the rows of the places taken.
pub fn eliminate(records: Records<'_>, chosen: Chosen) -> Reduced
    requires { (chosen.count ≤ records.z.m)
        × ((t : ℕ) → t < chosen.count → at chosen.numbers t < place_count records.z) }
    ensures { let records = records.entry in
        let z = records.z in
        Reduces chosen.count z.m (listed_rows (row_in z records.bytes.now) chosen) (cells result.combinations) result.rank }
{
    let rows = rows_in(records).rows_of(chosen.numbers, chosen.count);
    linear::reduce(rows, chosen.count, records.z.m)
}
