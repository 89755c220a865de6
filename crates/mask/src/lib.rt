// Masks (NC-Audit): F2, F3, auxiliary elements, mask and mask sum; Setup.
#![tactic(auto)]

mod rows;

ghost use Rattle.std.specs.Prelude.{◌≡◌, ℕ, ◌+◌, ◌-◌, ◌*◌, ◌<◌, ◌≤◌, length};
ghost use Rattle.lists.specs.Lists.{at, any_below};
ghost use Rattle.answer.specs.Refusals.{differs};
ghost use Rattle.sizes.specs.Lengths.{vectors_most, n_least, n_most, tags_most, auxiliary_length};
ghost use Rattle.vector.specs.Vectors.{all_zero};
ghost use Rattle.tag.specs.KeyVector.{key_vector};
ghost use Rattle.mask.specs.Masks.{mask_row, auxiliary};
ghost use Rattle.mask.specs.Setup.{setup_answer, setup_out};
ghost use Rattle.mask.specs.Laws.{MaskSums};

use answer::Refusal;
use field::Tables;
use keystream::Key;
pub use rows::{MaskRows, Seed};
use tag::Id;

// Whether one of the first len elements of key vector s is not zero. A loop: each draw moves the stream on, which a closure would hide.
fn any_element(tag_key: Key, id: Id, s: usize, len: usize) -> bool
    requires { s < tags_most }
    ensures { result ≡ any_below len (λ e. differs (key_vector tag_key id s e) 0) }
{
    let mut vector = tag::key_stream(tag_key, id, s);
    for _ in 0..len {
        let d = vector.next();
        if d.byte != 0 {
            return true;
        }
        vector = d.stream;
    }
    false
}

// Whether the key vector of one of the tags is zero in its first n - 2 elements. Here and below `tags` is a count that was tested: a type
// for it would be opened at once.
fn any_zero_vector(tag_key: Key, id: Id, n: usize, tags: usize) -> bool
    requires { (n_least ≤ n)
        × (tags ≤ tags_most) }
    ensures { result ≡ any_below tags (λ s. all_zero (n - 2) (key_vector tag_key id s)) }
{
    (0..tags).any(|s| !any_element(tag_key, id, s, n - 2))
}

// The first refusal of Setup.
fn setup_check(
    tag_key: &[u8],
    mask_key: &[u8],
    id: &[u8],
    n: usize,
    tags: usize,
    out: &[u8],
) -> Result<(), Refusal>
    ensures { let tag_key = tag_key.now in
        let mask_key = mask_key.now in
        let id = id.entry.now in
        let out = out.entry.now in
        result ≡ setup_answer tag_key mask_key id n tags out }
{
    if sizes::n_outside(n) | sizes::tags_outside(tags) {
        return Err(Refusal::Size);
    }
    if (tag_key.len() != sizes::KEY_LENGTH)
        | (mask_key.len() != sizes::KEY_LENGTH)
        | (id.len() != sizes::ID_LENGTH)
        | (out.len() != sizes::auxiliary_length(n, tags))
    {
        return Err(Refusal::Length);
    }
    let tag_key = Key::try_from(tag_key).unwrap();
    let id = Id::try_from(id).unwrap();
    if any_zero_vector(tag_key, id, n, tags) {
        return Err(Refusal::ZeroKeyVector);
    }
    Ok(())
}

// The key vectors of the tags, one after another, of N_MOST elements each. By place: of a slice written through `chunks_exact_mut` a proof
// knows the length alone.
fn key_vectors(tag_key: Key, id: Id, tags: usize, vectors: &mut [u8])
    requires { (tags ≤ tags_most)
        × (length vectors.old ≡ vectors_most) }
    ensures { ((s e : ℕ) → s < tags → e < n_most → at vectors.new (s * n_most + e) ≡ key_vector tag_key id s e) }
{
    for s in 0..tags {
        let first = s * sizes::N_MOST;
        tag::key_vector_into(tag_key, id, s, &mut vectors[first..first + sizes::N_MOST]);
    }
}

// The auxiliary elements of a tag key and the mask rows of a mask key, both accepted.
fn setup_into(tag_key: Key, rows: &MaskRows, tags: usize, out: &mut [u8])
    requires { (tags ≤ tags_most) × (length out.old ≡ auxiliary_length rows.now.n tags) }
    ensures { let rows = rows.entry.now in
        out.new ≡ auxiliary rows.n tags (key_vector tag_key rows.id) (mask_row rows.key rows.id) }
{
    let tables = Tables::new();
    let mut vectors = [0u8; sizes::VECTORS_MOST];
    key_vectors(tag_key, rows.id, tags, &mut vectors);
    rows.auxiliary_into(&tables, &vectors, tags, out);
}

// The n - 1 auxiliary elements of each tag, of the tag key and the mask key.
pub fn setup(
    tag_key: &[u8],
    mask_key: &[u8],
    id: &[u8],
    n: usize,
    tags: usize,
    out: &mut [u8],
) -> Result<(), Refusal>
    ensures answer { let tag_key = tag_key.now in
        let mask_key = mask_key.now in
        let id = id.entry.now in
        let out = out.entry.now in
        result ≡ setup_answer tag_key mask_key id n tags out }
    ensures output { let tag_key = tag_key.now in
        let mask_key = mask_key.now in
        let id = id.entry.now in
        out.new ≡ setup_out tag_key mask_key id n tags out.old }
{
    setup_check(tag_key, mask_key, id, n, tags, out)?;
    let tag_key = Key::try_from(tag_key).unwrap();
    let rows = MaskRows {
        key: Key::try_from(mask_key).unwrap(),
        id: Id::try_from(id).unwrap(),
        n,
    };
    setup_into(tag_key, &rows, tags, out);
    Ok(())
}

// Carries the law of mask sums: without its proof the crate is not proved.
pub fn mask_sums()
    ensures { MaskSums }
{}
