// The block function of RFC 8439, section 2.3.
ghost use Rattle.std.specs.Prelude.{◌≡◌, ◌+◌, ◌*◌, ◌%◌, ◌<◌, ◌≤◌, length, slice_index};
ghost use Rattle.lists.specs.Lists.{tab};
ghost use Rattle.keystream.specs.ChaCha.{rotl, quarter_of, quarter_by, quadruples, quarters_to, rounds};
ghost use Rattle.keystream.specs.ChaCha.{block_words, word_at, start, serialised};
ghost use Rattle.keystream.specs.PrivateStream.{pairs_of};
ghost use Rattle.keystream.specs.Draws.{byte_at};
ghost use Rattle.keystream.specs.Block.{block_answer, block_out};

use answer::Refusal;

// The key and the nonce of RFC 8439, by value.
pub type Key = [u8; sizes::KEY_LENGTH];

pub type Nonce = [u8; sizes::NONCE_LENGTH];

// The eight quadruples of word positions of a double round: four columns, four diagonals.
const QUARTERS: [[usize; 4]; 8] = [
    [0, 4, 8, 12],
    [1, 5, 9, 13],
    [2, 6, 10, 14],
    [3, 7, 11, 15],
    [0, 5, 10, 15],
    [1, 6, 11, 12],
    [2, 7, 8, 13],
    [3, 4, 9, 14],
];

// The four words of a quarter round.
#[derive(Clone, Copy, PartialEq, Eq, Debug)]
pub struct Four {
    pub a: u32,
    pub b: u32,
    pub c: u32,
    pub d: u32,
}

fn rotated(x: u32, k: u32) -> u32
    requires { (0 < k) × (k < 32) }
    ensures { result ≡ rotl x k }
{
    (x << k) | (x >> (32 - k))
}

// Section 2.1.
pub fn quarter_round(f: Four) -> Four
    ensures { result ≡ quarter_of f }
{
    let a1 = std::num::wrapping_add_u32(f.a, f.b);
    let d1 = rotated(f.d ^ a1, 16);
    let c1 = std::num::wrapping_add_u32(f.c, d1);
    let b1 = rotated(f.b ^ c1, 12);
    let a2 = std::num::wrapping_add_u32(a1, b1);
    let d2 = rotated(d1 ^ a2, 8);
    let c2 = std::num::wrapping_add_u32(c1, d2);
    let b2 = rotated(b1 ^ c2, 7);
    Four {
        a: a2,
        b: b2,
        c: c2,
        d: d2,
    }
}

// Section 2.2: the quarter round on the four words of a state that a quadruple names.
fn quarter_by(s: [u32; 16], q: [usize; 4]) -> [u32; 16]
    requires { (slice_index q 0 < 16) × (slice_index q 1 < 16) × (slice_index q 2 < 16) × (slice_index q 3 < 16) }
    ensures { result ≡ quarter_by q s }
{
    let mut t = s;
    let f = quarter_round(Four {
        a: t[q[0]],
        b: t[q[1]],
        c: t[q[2]],
        d: t[q[3]],
    });
    t[q[0]] = f.a;
    t[q[1]] = f.b;
    t[q[2]] = f.c;
    t[q[3]] = f.d;
    t
}

// A quarter round for each quadruple of the table, which is lent: a constant named in the loop would be built anew at each turn.
// A call's result goes to a name of its own first, here and in `ten_rounds`: laid straight in an array, the check does not cover it.
fn double_round(s: [u32; 16], quarters: &[[usize; 4]; 8]) -> [u32; 16]
    requires { quarters.now ≡ quadruples }
    ensures { result ≡ quarters_to 8 s }
{
    let mut t = s;
    for q in quarters {
        let u = quarter_by(t, *q);
        t = u;
    }
    t
}

fn ten_rounds(s: [u32; 16]) -> [u32; 16]
    ensures { result ≡ rounds 10 s }
{
    let quarters = QUARTERS;
    let mut t = s;
    for _ in 0usize..10 {
        let u = double_round(t, &quarters);
        t = u;
    }
    t
}

// The words of the block that the state w starts.
fn block_words(w: [u32; 16]) -> [u32; 16]
    ensures { result ≡ block_words w }
{
    let mut words = ten_rounds(w);
    for (i, word) in words.iter_mut().enumerate() {
        *word = word.wrapping_add(w[i]);
    }
    words
}

// The block that the state w starts, as 8 numbers of 64 bits.
pub fn block_pairs(w: [u32; 16]) -> [u64; 8]
    ensures { result ≡ pairs_of (block_words w) }
{
    let words = block_words(w);
    let mut pairs = [0u64; 8];
    for (i, pair) in pairs.iter_mut().enumerate() {
        *pair = u64::from(words[i * 2]) + (u64::from(words[i * 2 + 1]) << 32);
    }
    pairs
}

// The word whose lowest byte is byte `from`.
fn word_at(b: &[u8], from: usize) -> u32
    requires { from + 4 ≤ length b.now }
    ensures { result ≡ word_at b.now from }
{
    u32::from_le_bytes([b[from], b[from + 1], b[from + 2], b[from + 3]])
}

// The state that a block starts from: constants, key, counter, nonce.
pub fn start_state(key: &[u8], counter: u32, nonce: &[u8]) -> [u32; 16]
    requires { (length key.now ≡ 32) × (length nonce.now ≡ 12) }
    ensures { result ≡ start key.now counter nonce.now }
{
    [
        0x61707865,
        0x3320646e,
        0x79622d32,
        0x6b206574,
        word_at(key, 0),
        word_at(key, 4),
        word_at(key, 8),
        word_at(key, 12),
        word_at(key, 16),
        word_at(key, 20),
        word_at(key, 24),
        word_at(key, 28),
        counter,
        word_at(nonce, 0),
        word_at(nonce, 4),
        word_at(nonce, 8),
    ]
}

// The 64 bytes of 16 words. By place, here and in `fill`: of a slice written through `chunks_exact_mut` a proof knows the length alone.
fn spread(w: [u32; 16], out: &mut [u8])
    requires { length out.old ≡ 64 }
    ensures { out.new ≡ serialised w }
{
    for (k, word) in w.iter().enumerate() {
        out[4 * k..4 * k + 4].copy_from_slice(&word.to_le_bytes());
    }
}

// Fills out, which has whole blocks, with the first bytes of the stream, block by block.
pub fn fill(key: Key, nonce: Nonce, out: &mut [u8])
    requires { length out.old % 64 ≡ 0 }
    ensures { out.new ≡ tab (length out.old) (byte_at key nonce) }
{
    let mut w = start_state(&key, 0, &nonce);
    for j in 0..out.len() / sizes::STREAM_BLOCK_LENGTH {
        spread(block_words(w), &mut out[64 * j..64 * j + 64]);
        w[12] = std::num::wrapping_add_u32(w[12], 1);
    }
}

// The block for a key of 32 bytes, a counter and a nonce of 12 bytes, into 64 bytes.
pub fn block(key: &[u8], counter: u32, nonce: &[u8], out: &mut [u8]) -> Result<(), Refusal>
    ensures answer { result ≡ block_answer key.now nonce.now out.old }
    ensures output { let key = key.entry.now in
        let nonce = nonce.entry.now in
        out.new ≡ block_out key counter nonce out.old }
{
    if key.len() != sizes::KEY_LENGTH {
        return Err(Refusal::Length);
    }
    if nonce.len() != sizes::NONCE_LENGTH {
        return Err(Refusal::Length);
    }
    if out.len() != sizes::STREAM_BLOCK_LENGTH {
        return Err(Refusal::Length);
    }
    spread(block_words(start_state(key, counter, nonce)), out);
    Ok(())
}
