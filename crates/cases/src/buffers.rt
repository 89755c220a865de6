// Buffers of fixed memory: what a test lends to a call, and whether the call has kept it.
ghost use Rattle.std.specs.Prelude.{◌≤◌};

use std::io;

// N bytes, of which a call is lent the first `len`.
#[derive(Clone, Copy)]
pub struct Buffer<const N: usize> {
    pub bytes: [u8; N],
    len: usize,
    ghost fits: { len ≤ N },
}

// What is lent for an output.
pub type Lent = Buffer<64>;

impl<const N: usize> Buffer<N> {
    // N times b, of which `len` are lent, or all N where `len` is above N.
    pub fn filled(b: u8, len: usize) -> Self {
        Buffer {
            bytes: [b; N],
            len: len.min(N),
        }
    }

    // The bytes given, as many as there is room for, then a5; those given are lent.
    pub fn of(given: &[u8]) -> Self {
        Self::filled(0xa5, given.len()).with_start(given)
    }

    // The same, but that the first bytes are those given, as many as there is room for.
    pub fn with_start(mut self, given: &[u8]) -> Self {
        for (byte, b) in self.bytes.iter_mut().zip(given) {
            *byte = *b;
        }
        self
    }

    // The same, but that byte `at`, where there is one, is b.
    pub fn with_byte(mut self, at: usize, b: u8) -> Self {
        if let Some(byte) = self.bytes.get_mut(at) {
            *byte = b;
        }
        self
    }

    // The same, but that `len` bytes are lent, or all N where `len` is above N.
    pub fn with_len(mut self, len: usize) -> Self {
        self.len = len.min(N);
        self
    }

    pub fn as_slice(&self) -> &[u8] {
        &self.bytes[..self.len]
    }

    pub fn as_mut_slice(&mut self) -> &mut [u8] {
        // In steps: the check takes no part to write of an array whose length is a parameter, but of a slice of it.
        let len = self.len;
        let bytes = &mut self.bytes;
        let whole = &mut bytes[..];
        &mut whole[..len]
    }
}

// The first `len` bytes, or all where there are fewer.
pub fn first(bytes: &[u8], len: usize) -> &[u8] {
    &bytes[..len.min(bytes.len())]
}

// What a refused call left of a buffer, the bytes past those lent too.
pub fn unchanged<const N: usize>(
    rt: &impl Print,
    before: &Buffer<N>,
    after: &Buffer<N>,
) -> io::Result<()> {
    if before.bytes == after.bytes {
        println!(rt; "  nothing written")
    } else {
        println!(rt; "  WRITTEN")
    }
}

// What it left of a buffer where each byte was a5.
pub fn kept(rt: &impl Print, lent: &Lent) -> io::Result<()> {
    unchanged(rt, &Lent::filled(0xa5, 0), lent)
}
