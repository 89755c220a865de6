// Plan: the thetas by which Repair gives a node's places the rows that are wanted.
#![tactic(auto)]

mod rows;
mod thetas;

ghost use Rattle.std.specs.Prelude.{◌≡◌};
ghost use Rattle.answer.specs.Refusals.{Passed};
ghost use Rattle.archive.specs.Plan.{plan_before, PlanAllows};

use answer::Refusal;
use archive::Records;
use choice::Rows;
use field::Tables;
use rows::repair_rows;
use thetas::Wanted;

// The first refusal of Plan before 12.
fn plan_check(
    archive: &[u8],
    helpers: &[u8],
    q: usize,
    gammas: &[u8],
    rows: &[u8],
    thetas: &[u8],
) -> Result<(), Refusal>
    ensures { let archive = archive.entry.now in
        let helpers = helpers.entry.now in
        let gammas = gammas.entry.now in
        let rows = rows.entry.now in
        let thetas = thetas.entry.now in
        result ≡ plan_before archive helpers q gammas rows thetas }
{
    if archive::bad_archive(archive) {
        return Err(Refusal::BadArchive);
    }
    let z = archive::sizes_in(archive);
    let p = helpers.len();
    if answer::outside(1, sizes::HELPERS_MOST, p) | answer::outside(1, sizes::SENT_MOST, q) {
        return Err(Refusal::Size);
    }
    let count = p * q * z.places;
    if (gammas.len() != count) | (rows.len() != z.places * z.m) | (thetas.len() != count) {
        return Err(Refusal::Length);
    }
    if coding::any_missing(helpers, z.nodes) {
        return Err(Refusal::NoSuchPlace);
    }
    if coding::any_helper_empty(archive, z, helpers) {
        return Err(Refusal::PlaceEmpty);
    }
    Ok(())
}

// The thetas, where the repair rows reach every wanted row. Elimination on the columns of the repair rows taken gives a combination for
// each of them that sees it alone, and then combinations that see none of them.
fn plan_thetas(
    archive: &[u8],
    helpers: &[u8],
    q: usize,
    gammas: &[u8],
    rows: &[u8],
    thetas: &mut [u8],
) -> Result<(), Refusal>
    requires { Passed (plan_before archive.now helpers.now q gammas.now rows.now thetas.old) }
    ensures { let archive = archive.entry.now in
        let helpers = helpers.entry.now in
        let gammas = gammas.entry.now in
        let rows = rows.entry.now in
        PlanAllows archive helpers q gammas rows thetas.old result thetas.new }
{
    let tables = Tables::new();
    let z = archive::sizes_in(archive);
    let wanted = Wanted { z, rows };
    let count = helpers.len() * q;
    let records = Records { z, bytes: archive };
    let sent = repair_rows(&tables, records, helpers, q, gammas);
    let all = Rows {
        bytes: &sent,
        start: 0,
        stride: z.m,
        count,
        m: z.m,
    };
    let c = all.choose([true; 48]);
    let taken = all.rows_of(c.numbers, c.count);
    let reduced = linear::reduce(linear::turned(taken), z.m, c.count);
    if !wanted.reached(&tables, reduced.combinations, c.count) {
        return Err(Refusal::NoPlan);
    }
    wanted.write_thetas(
        &tables,
        reduced.combinations,
        c.numbers,
        c.count,
        count,
        thetas,
    );
    Ok(())
}

// The thetas that Repair, with these helpers and gammas, takes to give the places of a node (the scheme: box) the wanted rows.
pub fn plan(
    archive: &[u8],
    helpers: &[u8],
    q: usize,
    gammas: &[u8],
    rows: &[u8],
    thetas: &mut [u8],
) -> Result<(), Refusal>
    ensures { let archive = archive.entry.now in
        let helpers = helpers.entry.now in
        let gammas = gammas.entry.now in
        let rows = rows.entry.now in
        PlanAllows archive helpers q gammas rows thetas.old result thetas.new }
{
    plan_check(archive, helpers, q, gammas, rows, thetas)?;
    plan_thetas(archive, helpers, q, gammas, rows, thetas)
}
