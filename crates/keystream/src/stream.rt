// A stream of keystream bytes, by value.
ghost use Rattle.std.specs.Prelude.{◌≡◌, ◌<◌};
ghost use Rattle.lists.specs.Lists.{at};
ghost use Rattle.keystream.specs.PrivateStream.{fresh, drawn, DrawLaws};

use super::chacha::{Key, Nonce, block_pairs, start_state};

// The place in the block at hand, what is left of the number at hand, the state of the next block, and the block at hand.
// The numbers stand first: `Drawn` is then built without a copy of the arrays.
#[derive(Clone, Copy)]
pub struct Stream {
    at: usize,
    cur: u64,
    words: [u32; 16],
    cache: [u64; 8],
}

// The byte, and the stream moved on by one.
#[derive(Clone, Copy)]
pub struct Drawn {
    pub byte: u8,
    pub stream: Stream,
}

// Element i, with each index written out, so that the compiler keeps the elements out of memory: `b[i]` makes a draw a quarter slower.
fn pair_at(b: [u64; 8], i: usize) -> u64
    requires { i < 8 }
    ensures { result ≡ at b i }
{
    match i {
        0 => b[0],
        1 => b[1],
        2 => b[2],
        3 => b[3],
        4 => b[4],
        5 => b[5],
        6 => b[6],
        _ => b[7],
    }
}

impl Stream {
    // At counter 0.
    pub fn new(key: Key, nonce: Nonce) -> Stream
        ensures { result ≡ fresh key nonce }
    {
        let mut w = start_state(&key, 0, &nonce);
        let c = block_pairs(w);
        w[12] = 1;
        Stream {
            at: 0,
            cur: c[0],
            words: w,
            cache: c,
        }
    }

    // A block is computed once for its 64 bytes, as the last byte of the one before it is drawn.
    pub fn next(self) -> Drawn
        ensures { result ≡ drawn self }
    {
        let at = (self.at % 64 + 1) % 64;
        let byte = (self.cur % 256) as u8;
        let mut cur = self.cur >> 8;
        let mut w = self.words;
        let mut c = self.cache;
        if at % 8 == 0 {
            if at == 0 {
                let n = block_pairs(w);
                c = n;
                w[12] = std::num::wrapping_add_u32(w[12], 1);
            }
            cur = pair_at(c, at / 8);
        }
        Drawn {
            byte,
            stream: Stream {
                at,
                cur,
                words: w,
                cache: c,
            },
        }
    }
}

// Carries the laws of draws: without their proof the crate is not proved.
pub fn draw_laws()
    ensures { DrawLaws }
{}
