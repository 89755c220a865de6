// Mask rows: what is made of all of them, one pass over each.
ghost use Rattle.std.specs.Prelude.{◌≡◌, ℕ, ◌+◌, ◌-◌, ◌*◌, ◌<◌, ◌≤◌, ◌∷◌, length};
ghost use Rattle.lists.specs.Lists.{at};
ghost use Rattle.sizes.specs.Lengths.{n_least, n_most, tags_most, vectors_most, auxiliary_length};
ghost use Rattle.keystream.specs.PrivateStream.{drawn, after};
ghost use Rattle.vector.specs.Vectors.{product, added};
ghost use Rattle.mask.specs.PrivateSpaced.{spaced};
ghost use Rattle.mask.specs.Masks.{mask_row, mask_coefficient, auxiliary, mask, mask_sum};

use field::Tables;
use keystream::{Key, Nonce, Stream};
use tag::Id;

// A seed by value.
pub type Seed = [u8; sizes::SEED_LENGTH];

// The mask rows of a mask key, an id and n: n - 1 of them, of n - 2 elements each.
#[derive(Clone, Copy)]
pub struct MaskRows {
    pub key: Key,
    pub id: Id,
    pub n: usize,
    pub ghost n_low: { n_least ≤ n },
    pub ghost n_high: { n ≤ n_most },
}

impl MaskRows {
    // Row i, counted from 0: its elements, and what follows them in their last block.
    fn row(&self, i: usize) -> [u8; sizes::N_MOST]
        requires { i < n_most }
        ensures { let rows = self.now in
            ((e : ℕ) → e < rows.n - 2 → at result e ≡ mask_row rows.key rows.id i e) }
    {
        let r = i + 1;
        let nonce = tag::id_nonce([2, 0, (r / 256 % 256) as u8, (r % 256) as u8], self.id);
        let mut row = [0u8; sizes::N_MOST];
        let blocks = (self.n + 61) / sizes::STREAM_BLOCK_LENGTH;
        keystream::fill(
            self.key,
            nonce,
            &mut row[..blocks * sizes::STREAM_BLOCK_LENGTH],
        );
        row
    }

    // One row times the first n - 2 elements of each tag's vector: element i of each tag. By s, which names the vector and the element both.
    fn products_into(
        &self,
        tables: &Tables,
        row: &[u8],
        vectors: &[u8],
        tags: usize,
        i: usize,
        out: &mut [u8],
    )
        requires { (tags ≤ tags_most)
            × (i < self.now.n - 1)
            × (length row.now ≡ n_most)
            × (length vectors.now ≡ vectors_most)
            × (length out.old ≡ auxiliary_length self.now.n tags) }
        ensures { let row = row.entry.now in
            let vectors = vectors.entry.now in
            let n = self.now.n in
            let value : ℕ → ℕ = λ s. product (n - 2) (at row) (λ e. at vectors (s * n_most + e)) in
            out.new ≡ spaced tags (n - 1) i value out.old }
    {
        let n = self.n;
        for s in 0..tags {
            let first = s * sizes::N_MOST;
            out[s * (n - 1) + i] = vector::product_of(
                tables,
                &row[..n - 2],
                &vectors[first..first + (n - 2)],
            );
        }
    }

    // The auxiliary elements over the vectors of the tags, which stand one after another, of N_MOST elements each: all those of a mask row
    // at once, so that the row is drawn once.
    pub fn auxiliary_into(&self, tables: &Tables, vectors: &[u8], tags: usize, out: &mut [u8])
        requires { (tags ≤ tags_most)
            × (length vectors.now ≡ vectors_most)
            × (length out.old ≡ auxiliary_length self.now.n tags) }
        ensures { let vectors = vectors.entry.now in
            let rows = self.now in
            out.new
            ≡ auxiliary rows.n tags (λ s e. at vectors (s * n_most + e)) (mask_row rows.key rows.id) }
    {
        // by number: a row is made of it
        for i in 0..self.n - 1 {
            let row = self.row(i);
            self.products_into(tables, &row, vectors, tags, i, out);
        }
    }

    // Each row times the next byte of a stream, added to out.
    fn add_rows(&self, tables: &Tables, coefficients: Stream, out: &mut [u8])
        requires { length out.old ≡ self.now.n - 2 }
        ensures { let rows = self.now in
            out.new
            ≡ added (rows.n - 2) 0 (mask rows.n (λ i. (drawn (after i coefficients)).byte) (mask_row rows.key rows.id)) out.old }
    {
        let mut s = coefficients;
        // by number, as above
        for i in 0..self.n - 1 {
            let d = s.next();
            let row = self.row(i);
            vector::add_multiple(tables, d.byte, &row[..self.n - 2], out);
            s = d.stream;
        }
    }

    // Adds the mask of a seed to n - 2 bytes; a second time takes it off again.
    pub fn add_mask(&self, seed: Seed, out: &mut [u8])
        requires { length out.old ≡ self.now.n - 2 }
        ensures { let rows = self.now in
            out.new
            ≡ added (rows.n - 2) 0 (mask rows.n (mask_coefficient rows.key seed) (mask_row rows.key rows.id)) out.old }
    {
        let tables = Tables::new();
        let coefficients = Stream::new(self.key, seed_nonce(seed));
        self.add_rows(&tables, coefficients, out);
    }

    // Mask sum s of a seed, made from the auxiliary elements of tag s.
    pub fn mask_sum(&self, seed: Seed, auxiliary: &[u8], s: usize) -> u8
        requires { (s < tags_most) × (auxiliary_length self.now.n (s + 1) ≤ length auxiliary.now) }
        ensures { let rows = self.now in
            result ≡ mask_sum rows.n (mask_coefficient rows.key seed) auxiliary.now s }
    {
        let tables = Tables::new();
        let coefficients = Stream::new(self.key, seed_nonce(seed));
        let first = s * (self.n - 1);
        tag::product_drawn(
            &tables,
            &auxiliary[first..first + (self.n - 1)],
            coefficients,
        )
    }
}

// The nonce of a seed. It is not `tag::id_nonce` with other lengths: no array's length is a sum of two.
fn seed_nonce(seed: Seed) -> Nonce
    ensures { result ≡ 3 ∷ seed }
{
    let mut nonce = [0u8; sizes::NONCE_LENGTH];
    nonce[0] = 3;
    nonce[1..].copy_from_slice(&seed);
    nonce
}
