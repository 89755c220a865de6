// Sizes and Rows: what an archive tells of itself.
ghost use Rattle.std.specs.Prelude.{◌≡◌, false, ◌+◌, ◌*◌, ◌<◌, length};
ghost use Rattle.lists.specs.Lists.{tab, flat};
ghost use Rattle.answer.specs.Refusals.{Passed};
ghost use Rattle.archive.specs.Layout.{layout_of, sizes_of, bad_archive};
ghost use Rattle.archive.specs.Told.{sizes_answer, size_after, stored_row, rows_answer, rows_out};

use answer::Refusal;
use archive::{bad_archive, sizes_in};

// The layout of an archive, n, m, places a node, nodes and tags (the scheme: M places a box, N boxes, L).
// Into numbers that are lent, as C lends them: the clauses say that a refusal leaves each as it was.
pub fn sizes(
    archive: &[u8],
    layout: &mut usize,
    n: &mut usize,
    m: &mut usize,
    places: &mut usize,
    nodes: &mut usize,
    tags: &mut usize,
) -> Result<(), Refusal>
    ensures answer { result ≡ sizes_answer archive.now }
    ensures layout { let s = archive.now in layout.new ≡ size_after s (layout_of s) layout.old }
    ensures n { let s = archive.now in n.new ≡ size_after s (sizes_of s).n n.old }
    ensures m { let s = archive.now in m.new ≡ size_after s (sizes_of s).m m.old }
    ensures places { let s = archive.now in places.new ≡ size_after s (sizes_of s).places places.old }
    ensures nodes { let s = archive.now in nodes.new ≡ size_after s (sizes_of s).nodes nodes.old }
    ensures tags { let s = archive.now in tags.new ≡ size_after s (sizes_of s).tags tags.old }
{
    if bad_archive(archive) {
        return Err(Refusal::BadArchive);
    }
    let z = sizes_in(archive);
    *layout = bits::read_field(archive, 0, 4);
    *n = z.n;
    *m = z.m;
    *places = z.places;
    *nodes = z.nodes;
    *tags = z.tags;
    Ok(())
}

// The first refusal of Rows.
fn rows_check(archive: &[u8], node: usize, rows: &[u8]) -> Result<(), Refusal>
    ensures { result ≡ rows_answer archive.now node rows.now }
{
    if bad_archive(archive) {
        return Err(Refusal::BadArchive);
    }
    let z = sizes_in(archive);
    if rows.len() != z.places * z.m {
        return Err(Refusal::Length);
    }
    if z.nodes <= node {
        return Err(Refusal::NoSuchPlace);
    }
    Ok(())
}

// The row of a node's place, or zeros.
fn write_row(archive: &[u8], node: usize, place: usize, row: &mut [u8])
    requires { (bad_archive archive.now ≡ false)
        × (node < (sizes_of archive.now).nodes)
        × (place < (sizes_of archive.now).places)
        × (length row.old ≡ (sizes_of archive.now).m) }
    ensures { let archive = archive.entry.now in
        row.new ≡ tab (sizes_of archive).m (stored_row (sizes_of archive) archive node place) }
{
    let z = sizes_in(archive);
    let k = node * z.places + place;
    if !archive::marked(archive, k) {
        row.fill(0);
        return;
    }
    let start = sizes::record_start(z, k) + z.n;
    lists::copy(&archive[start..start + z.m], row);
}

// The rows of a node's places.
fn write_rows(archive: &[u8], node: usize, rows: &mut [u8])
    requires { Passed (rows_answer archive.now node rows.old) }
    ensures { let archive = archive.entry.now in
        rows.new ≡ flat (sizes_of archive).places (sizes_of archive).m (stored_row (sizes_of archive) archive node) }
{
    let z = sizes_in(archive);
    // By place: after chunks_exact_mut no fact of what was written is left.
    for place in 0..z.places {
        let from = place * z.m;
        write_row(archive, node, place, &mut rows[from..from + z.m]);
    }
}

// The rows that a node holds, place by place, zeros for places that are not marked.
pub fn rows(archive: &[u8], node: usize, rows: &mut [u8]) -> Result<(), Refusal>
    ensures answer { result ≡ rows_answer archive.now node rows.old }
    ensures output { rows.new ≡ rows_out archive.now node rows.old }
{
    rows_check(archive, node, rows)?;
    write_rows(archive, node, rows);
    Ok(())
}
