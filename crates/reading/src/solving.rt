// The file, from the records of the places taken.
ghost use Rattle.std.specs.Prelude.{◌≡◌, ℕ, ◌+◌, ◌-◌, ◌<◌, length};
ghost use Rattle.lists.specs.Lists.{at, grid};
ghost use Rattle.vector.specs.Vectors.{mixed, added};
ghost use Rattle.linear.specs.PrivateElimination.{cells};
ghost use Rattle.sizes.specs.Lengths.{place_count, file_length};
ghost use Rattle.archive.specs.Layout.{byte_in};

use archive::Records;
use field::Tables;

// To the data of a block, that of m places is added, each times its coefficient.
fn add_places(
    tables: &Tables,
    records: Records<'_>,
    places: [u8; 16],
    coefficients: [u8; 16],
    block: &mut [u8],
)
    requires { ((t : ℕ) → t < records.z.m → at places t < place_count records.z) × (length block.old ≡ records.z.n - 2) }
    ensures { let records = records.entry in
        let z = records.z in
        block.new
        ≡ added (z.n - 2) 0 (mixed z.m (at coefficients) (λ t. byte_in z records.bytes.now (at places t))) block.old }
{
    let z = records.z;
    let len = z.n - 2;
    // by index: t names a place and its coefficient
    for t in 0..z.m {
        let start = sizes::record_start(z, usize::from(places[t]));
        vector::add_multiple(
            tables,
            coefficients[t],
            &records.bytes[start..start + len],
            block,
        );
    }
}

// The m blocks without their padding: block i is the places' data combined by combination i.
pub fn solve(records: Records<'_>, places: [u8; 16], combinations: [[u8; 16]; 16], file: &mut [u8])
    requires { ((t : ℕ) → t < records.z.m → at places t < place_count records.z) × (length file.old ≡ file_length records.z) }
    ensures { let records = records.entry in
        let z = records.z in
        file.new
        ≡ grid z.m (z.n - 2) 0 (λ i. mixed z.m (cells combinations i) (λ t. byte_in z records.bytes.now (at places t))) file.old }
{
    let tables = Tables::new();
    let z = records.z;
    let len = z.n - 2;
    for i in 0..z.m {
        let coefficients = combinations[i];
        // By row: after chunks_exact_mut no fact of what was written is left.
        let from = i * len;
        file[from..from + len].fill(0);
        let block = &mut file[from..from + len];
        add_places(&tables, records, places, coefficients, block);
    }
}
