// Key vectors and tags (NC-Audit): F1, and the tags of a block.
#![tactic(auto)]

ghost use Rattle.std.specs.Prelude.{◌≡◌, ◌∷◌, ◌++◌, ◌+◌, ◌*◌, ◌%◌, ◌<◌, length};
ghost use Rattle.lists.specs.Lists.{at, tab};
ghost use Rattle.sizes.specs.Lengths.{stream_block_length, tags_most};
ghost use Rattle.keystream.specs.PrivateStream.{drawn, after};
ghost use Rattle.vector.specs.Vectors.{product};
ghost use Rattle.tag.specs.KeyVector.{key_vector, TagsCombine};
ghost use Rattle.tag.specs.PrivateKeyStream.{GivesKeyVector};
ghost use Rattle.tag.specs.Vector.{vector_answer, vector_out};

use answer::Refusal;
use field::Tables;
use keystream::{Key, Nonce, Stream};

// An id by value.
pub type Id = [u8; sizes::ID_LENGTH];

// The nonce that starts with four bytes and ends with an id.
pub fn id_nonce(head: [u8; 4], id: Id) -> Nonce
    ensures { result ≡ head ++ id }
{
    let mut nonce = [0u8; sizes::NONCE_LENGTH];
    nonce[..4].copy_from_slice(&head);
    nonce[4..].copy_from_slice(&id);
    nonce
}

// The nonce of F1 for tag s. Here and below s is below ten, as it was counted: a type for it would be opened at once.
fn tag_nonce(s: usize, id: Id) -> Nonce
    requires { s < tags_most }
    ensures { result ≡ 1 ∷ s ∷ 0 ∷ 0 ∷ id }
{
    id_nonce([1, s as u8, 0, 0], id)
}

// The stream whose bytes are the key vector of tag s, for a tag key and an id: the one door to F1, drawn byte by byte.
pub fn key_stream(tag_key: Key, id: Id, s: usize) -> Stream
    requires { s < tags_most }
    ensures { GivesKeyVector tag_key id s result }
{
    Stream::new(tag_key, tag_nonce(s, id))
}

// Fills out, which has whole blocks of the keystream, with the first elements of that vector: the same door, block by block.
pub fn key_vector_into(tag_key: Key, id: Id, s: usize, out: &mut [u8])
    requires { (s < tags_most) × (length out.old % stream_block_length ≡ 0) }
    ensures { out.new ≡ tab (length out.old) (key_vector tag_key id s) }
{
    keystream::fill(tag_key, tag_nonce(s, id), out);
}

// The product of a vector and as many bytes of a stream, which is drawn by value (document 01's form) and so is no second slice.
pub fn product_drawn(tables: &Tables, u: &[u8], s: Stream) -> u8
    ensures { result ≡ product (length u.now) (at u.now) (λ e. (drawn (after e s)).byte) }
{
    let mut total = 0u8;
    let mut t = s;
    for x in u {
        let d = t.next();
        total ^= tables.product(*x, d.byte);
        t = d.stream;
    }
    total
}

// Fills out with the next bytes of a stream.
pub fn draw_into(s: Stream, out: &mut [u8])
    ensures { out.new ≡ tab (length out.old) (λ i. (drawn (after i s)).byte) }
{
    let mut t = s;
    for byte in out.iter_mut() {
        let d = t.next();
        *byte = d.byte;
        t = d.stream;
    }
}

// The first refusal of Vector.
fn vector_check(
    tag_key: &[u8],
    id: &[u8],
    n: usize,
    m: usize,
    s: usize,
    out: &[u8],
) -> Result<(), Refusal>
    ensures { result ≡ vector_answer tag_key.now id.now n m s out.now }
{
    if sizes::n_outside(n) | sizes::m_outside(m) | sizes::tag_outside(s) {
        return Err(Refusal::Size);
    }
    if (tag_key.len() != sizes::KEY_LENGTH)
        | (id.len() != sizes::ID_LENGTH)
        | (out.len() != n + m)
    {
        return Err(Refusal::Length);
    }
    Ok(())
}

// The key vector of tag s: n + m elements.
pub fn vector(
    tag_key: &[u8],
    id: &[u8],
    n: usize,
    m: usize,
    s: usize,
    out: &mut [u8],
) -> Result<(), Refusal>
    ensures answer { result ≡ vector_answer tag_key.now id.now n m s out.old }
    ensures output { let tag_key = tag_key.now in
        let id = id.entry.now in
        out.new ≡ vector_out tag_key id n m s out.old }
{
    vector_check(tag_key, id, n, m, s, out)?;
    let tag_key = Key::try_from(tag_key).unwrap();
    let id = Id::try_from(id).unwrap();
    draw_into(key_stream(tag_key, id, s), out);
    Ok(())
}

// Carries the law of tags: without its proof the crate is not proved.
pub fn tags_combine()
    ensures { TagsCombine }
{}
