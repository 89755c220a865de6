// The two inner loops that the benchmark measures, for C to call.
#![tactic(auto)]

ghost use Rattle.std.specs.Prelude.{◌≡◌, min, length};
ghost use Rattle.lists.specs.Lists.{at};
ghost use Rattle.field.specs.Field.{sum};
ghost use Rattle.vector.specs.Vectors.{product};
ghost use Rattle.keystream.specs.Draws.{byte_at};

use field::Tables;
use keystream::Stream;

// The product of two vectors: the sum of the products of their elements, as many as the shorter has.
#[unsafe(no_mangle)]
pub extern "C" fn loops_product(a: &[u8], b: &[u8]) -> u8
    ensures { let a = a.entry.now in
        let b = b.entry.now in
        result ≡ product (min (length a) (length b)) (at a) (at b) }
{
    let tables = Tables::new();
    let n = a.len().min(b.len());
    vector::product_of(&tables, &a[..n], &b[..n])
}

// The sum of the first n bytes of a stream.
#[unsafe(no_mangle)]
pub extern "C" fn loops_draw(key: &[u8; 32], nonce: &[u8; 12], n: usize) -> u8
    ensures { result ≡ sum n (byte_at key.now nonce.now) }
{
    let mut s = Stream::new(*key, *nonce);
    let mut total = 0u8;
    for _ in 0..n {
        let d = s.next();
        total ^= d.byte;
        s = d.stream;
    }
    total
}
