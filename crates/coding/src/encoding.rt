// Encode: one place is filled from the source blocks.
ghost use Rattle.std.specs.Prelude.{◌≡◌, false, ℕ, ◌++◌, ◌≤◌, length, take};
ghost use Rattle.lists.specs.Lists.{at, tab};
ghost use Rattle.answer.specs.Refusals.{Passed};
ghost use Rattle.sizes.specs.Sizes.{sizes_outside};
ghost use Rattle.sizes.specs.Lengths.{block_length, record_length, file_length, padding_length, tags_most};
ghost use Rattle.vector.specs.Vectors.{product};
ghost use Rattle.tag.specs.KeyVector.{key_vector};
ghost use Rattle.archive.specs.Layout.{sizes_of, id_of};
ghost use Rattle.archive.specs.Blocks.{coded};
ghost use Rattle.archive.specs.Calls as Calls;
ghost use Rattle.archive.specs.Calls.{archive_answer, effect_for, archive_after};

use answer::Refusal;
use archive::{bad_archive, id_in, marked, set_marks, sizes_in};
use field::Tables;
use keystream::Key;
use linear::Row;
use sizes::{Sizes, record_length, record_start};
use tag::Id;

// The first refusal of Encode.
fn encode_check(
    archive: &[u8],
    node: usize,
    place: usize,
    file: &[u8],
    padding: &[u8],
    tag_key: &[u8],
    row: &[u8],
) -> Result<(), Refusal>
    ensures { let archive = archive.entry.now in
        let file = file.entry.now in
        let padding = padding.entry.now in
        let tag_key = tag_key.now in
        let row = row.entry.now in
        result ≡ archive_answer archive (Calls.encode node place file padding tag_key row) }
{
    if bad_archive(archive) {
        return Err(Refusal::BadArchive);
    }
    let z = sizes_in(archive);
    if (file.len() != z.m * (z.n - 2))
        | (padding.len() != 2 * z.m)
        | (tag_key.len() != sizes::KEY_LENGTH)
        | (row.len() != z.m)
    {
        return Err(Refusal::Length);
    }
    if (z.nodes <= node) | (z.places <= place) {
        return Err(Refusal::NoSuchPlace);
    }
    if marked(archive, node * z.places + place) {
        return Err(Refusal::PlaceFilled);
    }
    Ok(())
}

// The source blocks combined by a row, and the row behind them.
fn write_block(tables: &Tables, z: Sizes, file: &[u8], padding: &[u8], row: Row, block: &mut [u8])
    requires { (sizes_outside z ≡ false)
        × (length file.now ≡ file_length z)
        × (length padding.now ≡ padding_length z)
        × (length block.old ≡ block_length z) }
    ensures { let file = file.entry.now in
        let padding = padding.entry.now in
        block.new ≡ tab (block_length z) (coded z file padding (at (take z.m row.bytes))) }
{
    let elements = &row.bytes[..z.m];
    let (data, rest) = block.split_at_mut(z.n - 2);
    let (end, coefficients) = rest.split_at_mut(2);
    data.fill(0);
    vector::combine(tables, z.m, elements, 1, file, data);
    end.fill(0);
    vector::combine(tables, z.m, elements, 1, padding, end);
    coefficients.copy_from_slice(elements);
}

// The tags of a block.
fn write_tags(tables: &Tables, tag_key: Key, id: Id, block: &[u8], tags: &mut [u8])
    requires { length tags.old ≤ tags_most }
    ensures { let block = block.entry.now in
        let tag : ℕ → ℕ = λ k. product (length block) (at block) (key_vector tag_key id k) in
        tags.new ≡ tab (length tags.old) tag }
{
    for (k, tag) in tags.iter_mut().enumerate() {
        *tag = tag::product_drawn(tables, block, tag::key_stream(tag_key, id, k));
    }
}

// The tags of the block of a record, behind it.
fn tag_record(tables: &Tables, z: Sizes, tag_key: Key, id: Id, out: &mut [u8])
    requires { (sizes_outside z ≡ false) × (length out.old ≡ record_length z) }
    ensures { let block = take (block_length z) out.old in
        let tag : ℕ → ℕ = λ k. product (length block) (at block) (key_vector tag_key id k) in
        out.new ≡ block ++ tab z.tags tag }
{
    let (block, tags) = out.split_at_mut(z.n + z.m);
    write_tags(tables, tag_key, id, block, tags);
}

// The mark, the block and its tags.
fn fill_place(
    archive: &mut [u8],
    node: usize,
    place: usize,
    file: &[u8],
    padding: &[u8],
    tag_key: Key,
    row: &[u8],
)
    requires { Passed (archive_answer archive.old (Calls.encode node place file.now padding.now tag_key row.now)) }
    ensures { let s = archive.old in
        let file = file.entry.now in
        let padding = padding.entry.now in
        let row = row.entry.now in
        archive.new ≡ effect_for (sizes_of s) (id_of s) s (Calls.encode node place file padding tag_key row) }
{
    let tables = Tables::new();
    let z = sizes_in(archive);
    let k = node * z.places + place;
    let id = id_in(archive);
    let kept = linear::row_from(row);
    set_marks(archive, k, 1, true);
    let start = record_start(z, k);
    let block = &mut archive[start..start + (z.n + z.m)];
    write_block(&tables, z, file, padding, kept, block);
    let record = &mut archive[start..start + record_length(z)];
    tag_record(&tables, z, tag_key, id, record);
}

// Fills a place of a node (the scheme: box) with the source blocks combined by a row, and the tags of that block.
pub fn encode(
    archive: &mut [u8],
    node: usize,
    place: usize,
    file: &[u8],
    padding: &[u8],
    tag_key: &[u8],
    row: &[u8],
) -> Result<(), Refusal>
    ensures answer { let archive = archive.entry.now in
        let file = file.entry.now in
        let padding = padding.entry.now in
        let tag_key = tag_key.now in
        let row = row.entry.now in
        result ≡ archive_answer archive (Calls.encode node place file padding tag_key row) }
    ensures output { let file = file.entry.now in
        let padding = padding.entry.now in
        let tag_key = tag_key.now in
        let row = row.entry.now in
        archive.new ≡ archive_after archive.old (Calls.encode node place file padding tag_key row) }
{
    encode_check(archive, node, place, file, padding, tag_key, row)?;
    let tag_key = Key::try_from(tag_key).unwrap();
    fill_place(archive, node, place, file, padding, tag_key, row);
    Ok(())
}
