// Vector: key vectors of the lives in numbers, and calls with any lengths and numbers.
use cases::{ID, counting_key, first};
use std::io;

// Key 00 .. 1f, id 01 .. 08, n=3, m=2.
fn worked(rt: &impl Print, label: &str, s: usize, expected: [u8; 5]) -> io::Result<()> {
    let mut out = [0u8; 5];
    let answer = tag::vector(&counting_key(0), &ID, 3, 2, s, &mut out);
    cases::answered(rt, "Vector's answer", 0, answer)?;
    cases::bytes(rt, label, &expected, &out)
}

// The first element of vector s of a key that Setup refuses where it has two tags or more.
fn first_element(s: usize) -> u8 {
    let mut out = [0xa5u8; 4];
    // The answer is not looked at: a refusal leaves a5, which no caller expects.
    let _ = tag::vector(&cases::key_of_zero(), &ID, 3, 1, s, &mut out);
    out[0]
}

fn vectors(rt: &impl Print) -> io::Result<()> {
    worked(
        rt,
        "Vector, key 00 .. 1f, id 01 .. 08, n=3, m=2",
        0,
        [0x04, 0x22, 0x0a, 0x59, 0x61],
    )?;
    worked(rt, "Vector, s=1", 1, [0x2d, 0xf9, 0x53, 0x39, 0xc5])?;
    worked(rt, "Vector, s=2", 2, [0x12, 0x8a, 0xcc, 0x81, 0x33])?;
    worked(rt, "Vector, s=9", 9, [0x8b, 0xdd, 0x36, 0x0e, 0x13])?;
    cases::bytes(
        rt,
        "Vectors 0, 1 and 2 of the key 00 .. 00 01 1f, first elements",
        &[0x9d, 0x00, 0xb3],
        &[first_element(0), first_element(1), first_element(2)],
    )
}

// A refused call with buffers of these lengths, each of at most 64.
fn refused(
    rt: &impl Print,
    label: &str,
    expected: u64,
    key: usize,
    id: usize,
    n: usize,
    m: usize,
    s: usize,
    out: usize,
) -> io::Result<()> {
    let given = [0xa5u8; 64];
    cases::refused_into(rt, label, expected, out, |out| {
        tag::vector(first(&given, key), first(&given, id), n, m, s, out)
    })
}

// Sizes outside their ranges are refused with 1, before any length is looked at; a wrong length with 2.
pub fn run(rt: &impl Print) -> io::Result<()> {
    vectors(rt)?;
    refused(rt, "Vector, n=0", 1, 32, 8, 0, 2, 0, 5)?;
    refused(rt, "Vector, n=2", 1, 32, 8, 2, 2, 0, 4)?;
    refused(rt, "Vector, n=1025", 1, 32, 8, 1025, 2, 0, 5)?;
    refused(rt, "Vector, n=2^63", 1, 0, 0, 1 << 63, 2, 0, 5)?;
    refused(rt, "Vector, m=0", 1, 32, 8, 3, 0, 0, 3)?;
    refused(rt, "Vector, m=17", 1, 32, 8, 3, 17, 0, 20)?;
    refused(rt, "Vector, m=2^64-1", 1, 0, 0, 3, usize::MAX, 0, 5)?;
    refused(rt, "Vector, s=10", 1, 32, 8, 3, 2, 10, 5)?;
    refused(rt, "Vector, s=2^63", 1, 0, 0, 3, 2, 1 << 63, 5)?;
    refused(rt, "Vector, key of 31 bytes", 2, 31, 8, 3, 2, 0, 5)?;
    refused(rt, "Vector, no key", 2, 0, 8, 3, 2, 0, 5)?;
    refused(rt, "Vector, id of 7 bytes", 2, 32, 7, 3, 2, 0, 5)?;
    refused(rt, "Vector, output of 4 bytes", 2, 32, 8, 3, 2, 0, 4)?;
    refused(rt, "Vector, output of 6 bytes", 2, 32, 8, 3, 2, 0, 6)?;
    refused(rt, "Vector, output of 0 bytes", 2, 32, 8, 3, 2, 0, 0)
}
