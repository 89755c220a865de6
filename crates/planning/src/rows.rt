// The repair rows: those at the ends of the blocks that helpers send.
ghost use Rattle.std.specs.Prelude.{◌≡◌, false, ℕ, ◌+◌, ◌*◌, ◌<◌, ◌≤◌, length};
ghost use Rattle.lists.specs.Lists.{at};
ghost use Rattle.sizes.specs.Lengths.{place_count};
ghost use Rattle.vector.specs.Vectors.{mixed, added};
ghost use Rattle.archive.specs.Read.{row_in};
ghost use Rattle.archive.specs.Repair.{coefficient_count, helper_missing};
ghost use Rattle.archive.specs.Plan.{repair_row};

use archive::Records;
use field::Tables;

// The bytes of all repair rows at the greatest sizes.
const ROWS_MOST: usize = sizes::HELPERS_MOST * sizes::SENT_MOST * sizes::M_MOST;

// To the m bytes of out, the rows of the places from number `first` on are added, each times its gamma.
fn add_rows(tables: &Tables, records: Records<'_>, first: usize, gammas: &[u8], out: &mut [u8])
    requires { (first + length gammas.now ≤ place_count records.z) × (length out.old ≡ records.z.m) }
    ensures { let records = records.entry in
        let gammas = gammas.entry.now in
        let row : ℕ → ℕ → ℕ = λ l. row_in records.z records.bytes.now (first + l) in
        out.new ≡ added records.z.m 0 (mixed (length gammas) (at gammas) row) out.old }
{
    let z = records.z;
    for (l, gamma) in gammas.iter().enumerate() {
        let start = sizes::record_start(z, first + l) + z.n;
        vector::add_multiple(tables, *gamma, &records.bytes[start..start + z.m], out);
    }
}

// The rows of the repair blocks, helper by helper; row t stands at t times m.
pub fn repair_rows(
    tables: &Tables,
    records: Records<'_>,
    helpers: &[u8],
    q: usize,
    gammas: &[u8],
) -> [u8; ROWS_MOST]
    requires { let z = records.z in (1 ≤ q)
        × (length helpers.now * q ≤ 40)
        × (helper_missing z helpers.now ≡ false)
        × (length gammas.now ≡ coefficient_count z helpers.now q) }
    ensures { let z = records.entry.z in
        let archive = records.entry.bytes.now in
        let helpers = helpers.entry.now in
        let gammas = gammas.entry.now in
        ((t i : ℕ) → t < length helpers * q → i < z.m → at result (t * z.m + i) ≡ repair_row z archive helpers q gammas t i) }
{
    let z = records.z;
    let mut out = [0u8; ROWS_MOST];
    // by index: after `chunks_exact_mut` a proof knows the length of out alone
    for t in 0..helpers.len() * q {
        let first = usize::from(helpers[t / q]) * z.places;
        let from = t * z.m;
        let coefficients = t * z.places;
        add_rows(
            tables,
            records,
            first,
            &gammas[coefficients..coefficients + z.places],
            &mut out[from..from + z.m],
        );
    }
    out
}
