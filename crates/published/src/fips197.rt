// FIPS 197: products and inverses (4.2), the chain of xtime (4.2.1), the S-box (5.1.1), and every product against a second method.
use std::io;

// Figure 7, row by row.
const SBOX: [u8; 256] = *b"\x63\x7c\x77\x7b\xf2\x6b\x6f\xc5\x30\x01\x67\x2b\xfe\xd7\xab\x76\
    \xca\x82\xc9\x7d\xfa\x59\x47\xf0\xad\xd4\xa2\xaf\x9c\xa4\x72\xc0\
    \xb7\xfd\x93\x26\x36\x3f\xf7\xcc\x34\xa5\xe5\xf1\x71\xd8\x31\x15\
    \x04\xc7\x23\xc3\x18\x96\x05\x9a\x07\x12\x80\xe2\xeb\x27\xb2\x75\
    \x09\x83\x2c\x1a\x1b\x6e\x5a\xa0\x52\x3b\xd6\xb3\x29\xe3\x2f\x84\
    \x53\xd1\x00\xed\x20\xfc\xb1\x5b\x6a\xcb\xbe\x39\x4a\x4c\x58\xcf\
    \xd0\xef\xaa\xfb\x43\x4d\x33\x85\x45\xf9\x02\x7f\x50\x3c\x9f\xa8\
    \x51\xa3\x40\x8f\x92\x9d\x38\xf5\xbc\xb6\xda\x21\x10\xff\xf3\xd2\
    \xcd\x0c\x13\xec\x5f\x97\x44\x17\xc4\xa7\x7e\x3d\x64\x5d\x19\x73\
    \x60\x81\x4f\xdc\x22\x2a\x90\x88\x46\xee\xb8\x14\xde\x5e\x0b\xdb\
    \xe0\x32\x3a\x0a\x49\x06\x24\x5c\xc2\xd3\xac\x62\x91\x95\xe4\x79\
    \xe7\xc8\x37\x6d\x8d\xd5\x4e\xa9\x6c\x56\xf4\xea\x65\x7a\xae\x08\
    \xba\x78\x25\x2e\x1c\xa6\xb4\xc6\xe8\xdd\x74\x1f\x4b\xbd\x8b\x8a\
    \x70\x3e\xb5\x66\x48\x03\xf6\x0e\x61\x35\x57\xb9\x86\xc1\x1d\x9e\
    \xe1\xf8\x98\x11\x69\xd9\x8e\x94\x9b\x1e\x87\xe9\xce\x55\x28\xdf\
    \x8c\xa1\x89\x0d\xbf\xe6\x42\x68\x41\x99\x2d\x0f\xb0\x54\xbb\x16";

fn product(rt: &impl Print, label: &str, a: u8, b: u8, expected: u8) -> io::Result<()> {
    cases::number(
        rt,
        label,
        u64::from(expected),
        u64::from(field::multiply(a, b)),
    )
}

fn products(rt: &impl Print) -> io::Result<()> {
    product(rt, "FIPS 197 4.2, 57 * 83", 0x57, 0x83, 0xc1)?;
    product(rt, "FIPS 197 4.2.1, 57 * 02", 0x57, 0x02, 0xae)?;
    product(rt, "FIPS 197 4.2.1, 57 * 04", 0x57, 0x04, 0x47)?;
    product(rt, "FIPS 197 4.2.1, 57 * 08", 0x57, 0x08, 0x8e)?;
    product(rt, "FIPS 197 4.2.1, 57 * 10", 0x57, 0x10, 0x07)?;
    product(rt, "FIPS 197 4.2.1, 57 * 13", 0x57, 0x13, 0xfe)
}

// The zero-or-one factor of two operands, then their product.
fn factored(
    rt: &impl Print,
    label: &str,
    a: u8,
    b: u8,
    factor: u64,
    expected: u8,
) -> io::Result<()> {
    cases::number(rt, label, factor, field::factor(a, b) as u64)?;
    product(rt, label, a, b, expected)
}

fn factors(rt: &impl Print) -> io::Result<()> {
    factored(rt, "Factor and product, 00 * 00", 0x00, 0x00, 0, 0x00)?;
    factored(rt, "Factor and product, 00 * 83", 0x00, 0x83, 0, 0x00)?;
    factored(rt, "Factor and product, 57 * 00", 0x57, 0x00, 0, 0x00)?;
    factored(rt, "Factor and product, 57 * 83", 0x57, 0x83, 1, 0xc1)?;
    factored(rt, "Factor and product, 01 * 01", 0x01, 0x01, 1, 0x01)?;
    factored(rt, "Factor and product, ff * ff", 0xff, 0xff, 1, 0x13)
}

fn inverse(rt: &impl Print, label: &str, a: u8, expected: u8) -> io::Result<()> {
    cases::number(rt, label, u64::from(expected), u64::from(field::inverse(a)))
}

fn inverses(rt: &impl Print) -> io::Result<()> {
    inverse(rt, "Inverse of 00", 0x00, 0x00)?;
    inverse(rt, "Inverse of 01", 0x01, 0x01)?;
    inverse(rt, "Inverse of 53", 0x53, 0xca)?;
    inverse(rt, "Inverse of ff", 0xff, 0x1c)
}

// Bit i of b.
fn bit(b: u8, i: u8) -> u8 {
    (b >> (i % 8)) % 2
}

// 5.1.1: the inverse, which maps 00 to itself, then the affine map, bit by bit.
fn substituted(x: u8) -> u8 {
    let b = field::inverse(x);
    (0u8..8).fold(0, |r, i| {
        let s = bit(b, i)
            ^ bit(b, i + 4)
            ^ bit(b, i + 5)
            ^ bit(b, i + 6)
            ^ bit(b, i + 7)
            ^ bit(0x63, i);
        r | (s << i)
    })
}

fn sbox(rt: &impl Print) -> io::Result<()> {
    let mut got = [0u8; 256];
    for (image, x) in got.iter_mut().zip(0..=255) {
        *image = substituted(x);
    }
    cases::bytes(rt, "FIPS 197 5.1.1, S-box", &SBOX, &got)
}

// The product of the polynomials a and b, of up to fifteen bits.
fn polynomial_product(a: u8, b: u8) -> u32 {
    (0u8..8)
        .filter(|i| bit(a, *i) == 1)
        .fold(0, |p, i| p ^ (u32::from(b) << i))
}

// A polynomial of up to fifteen bits, the modulus subtracted from the top down.
fn reduced(polynomial: u32) -> u8 {
    let mut p = polynomial;
    for i in (0u32..7).rev() {
        if (p >> (i + 8)) % 2 == 1 {
            p ^= 0x11b << i;
        }
    }
    (p % 256) as u8
}

// A second method: the product of two polynomials, reduced.
fn by_polynomials(a: u8, b: u8) -> u8 {
    reduced(polynomial_product(a, b))
}

// Of all pairs of bytes, each as a number of two bytes, how many have another product by the second method.
fn all_products(rt: &impl Print) -> io::Result<()> {
    let found = (0..=u16::MAX)
        .filter(|pair| {
            let [a, b] = pair.to_be_bytes();
            field::multiply(a, b) != by_polynomials(a, b)
        })
        .count();
    cases::number(
        rt,
        "65536 products, differences from the second method",
        0,
        found as u64,
    )
}

pub fn run(rt: &impl Print) -> io::Result<()> {
    products(rt)?;
    factors(rt)?;
    inverses(rt)?;
    sbox(rt)?;
    all_products(rt)
}
