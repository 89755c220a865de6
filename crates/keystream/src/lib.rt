// The keystream: ChaCha20's block function (RFC 8439) and a stream of bytes over it.
#![tactic(auto)]

mod chacha;
mod stream;

pub use chacha::{Four, Key, Nonce, block, fill, quarter_round};
pub use stream::{Drawn, Stream, draw_laws};
