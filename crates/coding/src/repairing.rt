// Repair: a node is filled from the records of its helpers.
ghost use Rattle.std.specs.Prelude.{◌≡◌, false, not, ◌+◌, ◌*◌, ◌<◌, ◌≤◌, length, leb};
ghost use Rattle.lists.specs.Lists.{at, any_below};
ghost use Rattle.answer.specs.Refusals.{Passed};
ghost use Rattle.sizes.specs.Sizes.{sizes_outside};
ghost use Rattle.sizes.specs.Lengths.{record_length, record_start, header_length};
ghost use Rattle.archive.specs.Layout.{sizes_of, id_of, filled_in, bad_archive};
ghost use Rattle.archive.specs.Calls as Calls;
ghost use Rattle.archive.specs.Calls.{archive_answer, effect_for, archive_after, scratch_after};
ghost use Rattle.archive.specs.Repair.{scratch_made};

use answer::Refusal;
use archive::{any_place, bad_archive, set_marks, sizes_in};
use field::Tables;
use sizes::{Sizes, record_length, record_start};

// Whether a helper is no node.
pub fn any_missing(helpers: &[u8], nodes: usize) -> bool
    ensures { result ≡ any_below (length helpers.now) (λ i. leb nodes (at helpers.now i)) }
{
    helpers.iter().any(|h| nodes <= usize::from(*h))
}

// Whether a place of this helper is empty.
fn any_empty(archive: &[u8], z: Sizes, helper: u8) -> bool
    requires { (sizes_outside z ≡ false) × (helper < z.nodes) × (header_length ≤ length archive.now) }
    ensures { let archive = archive.entry.now in
        result ≡ any_below z.places (λ l. not (filled_in z archive helper l)) }
{
    any_place(archive, z, usize::from(helper), false)
}

// Whether a place of a helper is empty.
pub fn any_helper_empty(archive: &[u8], z: Sizes, helpers: &[u8]) -> bool
    requires { (sizes_outside z ≡ false)
        × (header_length ≤ length archive.now)
        × (any_below (length helpers.now) (λ i. leb z.nodes (at helpers.now i)) ≡ false) }
    ensures { let helpers = helpers.entry.now in
        let archive = archive.entry.now in
        result ≡ any_below (length helpers) (λ i. any_below z.places (λ l. not (filled_in z archive (at helpers i) l))) }
{
    helpers.iter().any(|h| any_empty(archive, z, *h))
}

// The first refusal of Repair.
fn repair_check(
    archive: &[u8],
    target: usize,
    helpers: &[u8],
    q: usize,
    gammas: &[u8],
    thetas: &[u8],
    scratch: &[u8],
) -> Result<(), Refusal>
    ensures { let archive = archive.entry.now in
        let helpers = helpers.entry.now in
        let gammas = gammas.entry.now in
        let thetas = thetas.entry.now in
        let scratch = scratch.entry.now in
        result ≡ archive_answer archive (Calls.repair target helpers q gammas thetas (length scratch)) }
{
    if bad_archive(archive) {
        return Err(Refusal::BadArchive);
    }
    let z = sizes_in(archive);
    let p = helpers.len();
    if answer::outside(1, sizes::HELPERS_MOST, p) | answer::outside(1, sizes::SENT_MOST, q) {
        return Err(Refusal::Size);
    }
    let count = p * q * z.places;
    if (gammas.len() != count)
        | (thetas.len() != count)
        | (scratch.len() != p * q * record_length(z))
    {
        return Err(Refusal::Length);
    }
    if (z.nodes <= target) | any_missing(helpers, z.nodes) {
        return Err(Refusal::NoSuchPlace);
    }
    if any_place(archive, z, target, true) {
        return Err(Refusal::PlaceFilled);
    }
    if any_helper_empty(archive, z, helpers) {
        return Err(Refusal::PlaceEmpty);
    }
    Ok(())
}

// The repair blocks with tags, helper by helper.
fn repair_blocks(
    tables: &Tables,
    archive: &[u8],
    helpers: &[u8],
    q: usize,
    gammas: &[u8],
    scratch: &mut [u8],
)
    requires { (bad_archive archive.now ≡ false)
        × (1 ≤ q)
        × (q ≤ 8)
        × (length helpers.now ≤ 5)
        × (any_below (length helpers.now) (λ i. leb (sizes_of archive.now).nodes (at helpers.now i)) ≡ false)
        × (length gammas.now ≡ length helpers.now * q * (sizes_of archive.now).places)
        × (length scratch.old ≡ length helpers.now * q * record_length (sizes_of archive.now)) }
    ensures { let archive = archive.entry.now in
        let helpers = helpers.entry.now in
        let gammas = gammas.entry.now in
        scratch.new ≡ scratch_made (sizes_of archive) archive helpers q gammas }
{
    let z = sizes_in(archive);
    let places = z.places;
    let len = record_length(z);
    // by number: of a slice written through `chunks_exact_mut` a proof knows the length alone
    for t in 0..helpers.len() * q {
        let first = record_start(z, usize::from(helpers[t / q]) * places);
        let records = &archive[first..first + places * len];
        let coefficients = &gammas[t * places..(t + 1) * places];
        let block = &mut scratch[t * len..(t + 1) * len];
        block.fill(0);
        vector::combine(tables, places, coefficients, 1, records, block);
    }
}

// The repair blocks, and then the target's marks and records: a record is all repair blocks combined by the thetas of its place.
fn fill_target(
    archive: &mut [u8],
    target: usize,
    helpers: &[u8],
    q: usize,
    gammas: &[u8],
    thetas: &[u8],
    scratch: &mut [u8],
)
    requires { let call = Calls.repair target helpers.now q gammas.now thetas.now (length scratch.old) in
        Passed (archive_answer archive.old call) }
    ensures blocks { let archive = archive.entry.now in
        let helpers = helpers.entry.now in
        let gammas = gammas.entry.now in
        scratch.new ≡ scratch_made (sizes_of archive) archive helpers q gammas }
    ensures output { let s = archive.old in
        let helpers = helpers.entry.now in
        let gammas = gammas.entry.now in
        let thetas = thetas.entry.now in
        let scratch = scratch.entry.now in
        archive.new ≡ effect_for (sizes_of s) (id_of s) s (Calls.repair target helpers q gammas thetas (length scratch)) }
{
    let tables = Tables::new();
    let z = sizes_in(archive);
    let count = helpers.len() * q;
    repair_blocks(&tables, archive, helpers, q, gammas, scratch);
    set_marks(archive, target * z.places, z.places, true);
    let len = record_length(z);
    // by number, for the same reason as in `repair_blocks`
    for k in 0..z.places {
        let start = record_start(z, target * z.places + k);
        let record = &mut archive[start..start + len];
        record.fill(0);
        vector::combine(&tables, count, &thetas[k..], z.places, scratch, record);
    }
}

// Fills the places of a node (the scheme: box) from its helpers' records; scratch then holds the repair blocks.
pub fn repair(
    archive: &mut [u8],
    target: usize,
    helpers: &[u8],
    q: usize,
    gammas: &[u8],
    thetas: &[u8],
    scratch: &mut [u8],
) -> Result<(), Refusal>
    ensures answer { let archive = archive.entry.now in
        let helpers = helpers.entry.now in
        let gammas = gammas.entry.now in
        let thetas = thetas.entry.now in
        let scratch = scratch.entry.now in
        result ≡ archive_answer archive (Calls.repair target helpers q gammas thetas (length scratch)) }
    ensures output { let helpers = helpers.entry.now in
        let gammas = gammas.entry.now in
        let thetas = thetas.entry.now in
        let scratch = scratch.entry.now in
        archive.new
        ≡ archive_after archive.old (Calls.repair target helpers q gammas thetas (length scratch)) }
    ensures blocks { let archive = archive.entry.now in
        let helpers = helpers.entry.now in
        let gammas = gammas.entry.now in
        let thetas = thetas.entry.now in
        scratch.new ≡ scratch_after archive target helpers q gammas thetas scratch.old }
{
    repair_check(archive, target, helpers, q, gammas, thetas, scratch)?;
    fill_target(archive, target, helpers, q, gammas, thetas, scratch);
    Ok(())
}
