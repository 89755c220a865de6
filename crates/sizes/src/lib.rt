// The sizes of an archive, their ranges, and the lengths that they make.
#![tactic(auto)]

ghost use Rattle.std.specs.Prelude.{◌≡◌, false, ◌<◌, ◌≤◌};
ghost use Rattle.sizes.specs.Sizes.{n_outside, m_outside, tags_outside, tag_outside, sizes_outside};
ghost use Rattle.sizes.specs.Lengths.{record_length, archive_length, record_start, mark_count, record_most};
ghost use Rattle.sizes.specs.Lengths.{auxiliary_length, response_length};

// The lengths and offsets of specs/Lengths.antt that no size changes, under the same names.
pub const KEY_LENGTH: usize = 32;

pub const NONCE_LENGTH: usize = 12;

pub const STREAM_BLOCK_LENGTH: usize = 64;

pub const ID_LENGTH: usize = 8;

pub const SEED_LENGTH: usize = 11;

pub const ID_START: usize = 4;

pub const MARKS_START: usize = 12;

pub const HEADER_LENGTH: usize = 18;

pub const FIRST_MARK: usize = 96;

pub const MARK_COUNT: usize = 48;

// How far past n the mask sums of a response stand; past n and the number of tags, the elements in clear and the tags.
pub const SUM_PAST_N: usize = 10;

pub const CLEAR_PAST_SUMS: usize = 10;

pub const TAG_PAST_SUMS: usize = 12;

// The ranges of the sizes, from 1 but for n.
pub const N_LEAST: usize = 3;

pub const N_MOST: usize = 1024;

pub const M_MOST: usize = 16;

pub const PLACES_MOST: usize = 8;

pub const NODES_MOST: usize = 6;

pub const TAGS_MOST: usize = 10;

// Of a repair: helpers, and repair blocks that each of them sends (the scheme: P, Q), both from 1.
pub const HELPERS_MOST: usize = 5;

pub const SENT_MOST: usize = 8;

// The longest record, and the longest key vector in whole keystream blocks.
pub const RECORD_MOST: usize = N_MOST + M_MOST + TAGS_MOST;

pub const VECTOR_MOST: usize = 17 * STREAM_BLOCK_LENGTH;

// The first N_MOST elements of the key vectors of all tags.
pub const VECTORS_MOST: usize = TAGS_MOST * N_MOST;

// n, m, the places of a node, the nodes and the tags. The scheme: n, m, M (places a box), N (boxes), L.
#[derive(Clone, Copy)]
pub struct Sizes {
    pub n: usize,
    pub m: usize,
    pub places: usize,
    pub nodes: usize,
    pub tags: usize,
}

// Whether n is outside its range. Here and below by the one test of a range, which has no names for the ranges.
pub fn n_outside(n: usize) -> bool
    ensures { result ≡ n_outside n }
{
    answer::outside(N_LEAST, N_MOST, n)
}

// Whether m is outside its range.
pub fn m_outside(m: usize) -> bool
    ensures { result ≡ m_outside m }
{
    answer::outside(1, M_MOST, m)
}

// Whether a number of tags is outside its range.
pub fn tags_outside(tags: usize) -> bool
    ensures { result ≡ tags_outside tags }
{
    answer::outside(1, TAGS_MOST, tags)
}

// Whether no tag can have the number s.
pub fn tag_outside(s: usize) -> bool
    ensures { result ≡ tag_outside s }
{
    TAGS_MOST <= s
}

// Whether a size is outside its range.
pub fn sizes_outside(z: Sizes) -> bool
    ensures { result ≡ sizes_outside z }
{
    n_outside(z.n)
        | m_outside(z.m)
        | answer::outside(1, PLACES_MOST, z.places)
        | answer::outside(1, NODES_MOST, z.nodes)
        | tags_outside(z.tags)
}

// The bytes of a record: block, then tags.
pub fn record_length(z: Sizes) -> usize
    requires { sizes_outside z ≡ false }
    ensures { (result ≡ record_length z) × (result ≤ record_most) }
{
    z.n + z.m + z.tags
}

// The bytes of an archive.
pub fn archive_length(z: Sizes) -> usize
    requires { sizes_outside z ≡ false }
    ensures { result ≡ archive_length z }
{
    HEADER_LENGTH + z.nodes * z.places * record_length(z)
}

// Where the record of place number k starts.
pub fn record_start(z: Sizes, k: usize) -> usize
    requires { (sizes_outside z ≡ false) × (k < mark_count) }
    ensures { result ≡ record_start z k }
{
    HEADER_LENGTH + k * record_length(z)
}

// The auxiliary elements of so many tags.
pub fn auxiliary_length(n: usize, tags: usize) -> usize
    requires { (n_outside n ≡ false) × (tags_outside tags ≡ false) }
    ensures { result ≡ auxiliary_length n tags }
{
    tags * (n - 1)
}

// The bytes of a response.
pub fn response_length(n: usize, tags: usize) -> usize
    requires { (n_outside n ≡ false) × (tags_outside tags ≡ false) }
    ensures { result ≡ response_length n tags }
{
    n + 12 + 2 * tags
}
