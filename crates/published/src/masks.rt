// Setup and Unmask: the lives in numbers, and calls with any lengths and numbers.
use cases::{ID, Lent, RESPONSE, RESPONSE_OF_THREE, counting_key, first};
use std::io;

// Setup with n=3 and the mask key 64 .. 83; what it leaves of what is lent.
fn setup_with(
    rt: &impl Print,
    label: &str,
    expected: u64,
    key: [u8; 32],
    id: [u8; 8],
    tags: usize,
    out: usize,
) -> io::Result<Lent> {
    let mut lent = Lent::filled(0xa5, out);
    let answer = mask::setup(&key, &counting_key(100), &id, 3, tags, lent.as_mut_slice());
    cases::answered(rt, label, expected, answer)?;
    Ok(lent)
}

fn setup_worked(rt: &impl Print, label: &str, tags: usize, elements: &[u8]) -> io::Result<()> {
    let len = elements.len();
    let lent = setup_with(rt, "Setup's answer", 0, counting_key(0), ID, tags, len)?;
    cases::bytes(rt, label, elements, lent.as_slice())
}

fn setups(rt: &impl Print) -> io::Result<()> {
    setup_worked(
        rt,
        "Setup, keys 00 .. 1f and 64 .. 83, id 01 .. 08, n=3",
        1,
        &[0xa7, 0xaa],
    )?;
    setup_worked(rt, "Setup, L=3", 3, &[0xa7, 0xaa, 0xd2, 0x65, 0x74, 0xcb])
}

fn unmask_worked(rt: &impl Print, label: &str, tags: usize, response: &[u8]) -> io::Result<()> {
    let mut block = [0u8; 1];
    let answer = message::unmask(3, tags, &ID, &counting_key(100), response, &mut block);
    cases::answered(rt, "Unmask's answer", 0, answer)?;
    cases::bytes(rt, label, &[0x74], &block)
}

fn zero_vector(
    rt: &impl Print,
    label: &str,
    expected: u64,
    key: [u8; 32],
    id: [u8; 8],
    tags: usize,
    out: usize,
) -> io::Result<()> {
    cases::kept(rt, &setup_with(rt, label, expected, key, id, tags, out)?)
}

// 7, after the lengths: vector 0 of the first key starts with zero, of the second key vector 1 alone.
fn zero_vectors(rt: &impl Print) -> io::Result<()> {
    let key = counting_key(0);
    let id = [0x67, 0, 0, 0, 0, 0, 0, 0];
    zero_vector(rt, "Setup, the key element is zero", 7, key, id, 1, 2)?;
    zero_vector(rt, "Setup, the same with a short output", 2, key, id, 1, 1)?;
    let second = cases::key_of_zero();
    setup_with(rt, "Setup, key 00 .. 00 01 1f", 0, second, ID, 1, 2)?;
    zero_vector(rt, "Setup, the same with L=2", 7, second, ID, 2, 4)?;
    zero_vector(rt, "Setup, the same with L=3", 7, second, ID, 3, 6)
}

// A refused Setup with buffers of these lengths, each of at most 64.
fn setup(
    rt: &impl Print,
    label: &str,
    expected: u64,
    tag_key: usize,
    mask_key: usize,
    id: usize,
    n: usize,
    tags: usize,
    out: usize,
) -> io::Result<()> {
    let given = [0xa5u8; 64];
    cases::refused_into(rt, label, expected, out, |out| {
        mask::setup(
            first(&given, tag_key),
            first(&given, mask_key),
            first(&given, id),
            n,
            tags,
            out,
        )
    })
}

fn setup_refused(rt: &impl Print) -> io::Result<()> {
    setup(rt, "Setup, n=0", 1, 32, 32, 8, 0, 1, 2)?;
    setup(rt, "Setup, n=2", 1, 32, 32, 8, 2, 1, 1)?;
    setup(rt, "Setup, n=1025", 1, 0, 0, 0, 1025, 1, 0)?;
    setup(rt, "Setup, n=2^63", 1, 0, 0, 0, 1 << 63, 1, 0)?;
    setup(rt, "Setup, n=2^64-1", 1, 0, 0, 0, usize::MAX, 1, 0)?;
    setup(rt, "Setup, L=0", 1, 32, 32, 8, 3, 0, 0)?;
    setup(rt, "Setup, L=11", 1, 32, 32, 8, 3, 11, 22)?;
    setup(rt, "Setup, L=2^63", 1, 32, 32, 8, 3, 1 << 63, 0)?;
    setup(rt, "Setup, no tag key", 2, 0, 32, 8, 3, 1, 2)?;
    setup(rt, "Setup, mask key of 31 bytes", 2, 32, 31, 8, 3, 1, 2)?;
    setup(rt, "Setup, id of 9 bytes", 2, 32, 32, 9, 3, 1, 2)?;
    setup(rt, "Setup, output one short", 2, 32, 32, 8, 4, 1, 2)?;
    setup(rt, "Setup, output one long", 2, 32, 32, 8, 3, 1, 3)?;
    setup(rt, "Setup, output of 0 bytes", 2, 32, 32, 8, 3, 1, 0)?;
    setup(rt, "Setup, L=3, output one short", 2, 32, 32, 8, 3, 3, 5)?;
    setup(rt, "Setup, L=3, output one long", 2, 32, 32, 8, 3, 3, 7)?;
    setup(rt, "Setup, L=3, output of one tag", 2, 32, 32, 8, 3, 3, 2)
}

// A refused Unmask with buffers of these lengths, each of at most 64; the response starts with `start`.
fn unmask(
    rt: &impl Print,
    label: &str,
    expected: u64,
    n: usize,
    tags: usize,
    id: usize,
    mask_key: usize,
    response: usize,
    start: u8,
    out: usize,
) -> io::Result<()> {
    let given = [0xa5u8; 64];
    let got = Lent::filled(0xa5, response).with_start(&[start]);
    cases::refused_into(rt, label, expected, out, |out| {
        message::unmask(
            n,
            tags,
            first(&given, id),
            first(&given, mask_key),
            got.as_slice(),
            out,
        )
    })
}

// With n=3 and an id, a key and an output of the right lengths.
fn unmask_response(
    rt: &impl Print,
    label: &str,
    expected: u64,
    tags: usize,
    response: usize,
    start: u8,
) -> io::Result<()> {
    unmask(rt, label, expected, 3, tags, 8, 32, response, start, 1)
}

fn unmask_refused(rt: &impl Print) -> io::Result<()> {
    unmask(rt, "Unmask, n=2", 1, 2, 1, 8, 32, 16, 0x24, 0)?;
    unmask(rt, "Unmask, n=2^64-1", 1, usize::MAX, 1, 0, 0, 0, 0, 0)?;
    unmask_response(rt, "Unmask, L=0", 1, 0, 15, 0x24)?;
    unmask_response(rt, "Unmask, L=11", 1, 11, 37, 0x24)?;
    unmask_response(rt, "Unmask, L=2^63", 1, 1 << 63, 15, 0x24)?;
    unmask(rt, "Unmask, id of 7 bytes", 2, 3, 1, 7, 32, 17, 0x24, 1)?;
    unmask(rt, "Unmask, key of 33 bytes", 2, 3, 1, 8, 33, 17, 0x24, 1)?;
    unmask_response(rt, "Unmask, response one long", 2, 1, 18, 0x24)?;
    unmask_response(rt, "Unmask, no response", 2, 1, 0, 0)?;
    unmask_response(rt, "Unmask, L=3, response one short", 2, 3, 20, 0x24)?;
    unmask_response(rt, "Unmask, L=3, response one long", 2, 3, 22, 0x24)?;
    unmask_response(rt, "Unmask, L=3, response of one tag", 2, 3, 17, 0x24)?;
    unmask(rt, "Unmask, output of 0 bytes", 2, 3, 1, 8, 32, 17, 0x24, 0)?;
    unmask_response(rt, "Unmask, kind 1", 9, 1, 17, 0x14)?;
    unmask_response(rt, "Unmask, node 6", 9, 1, 17, 0x2c)?;
    unmask_response(rt, "Unmask, bit 7 set", 9, 1, 17, 0x25)
}

pub fn run(rt: &impl Print) -> io::Result<()> {
    setups(rt)?;
    unmask_worked(rt, "Unmask", 1, &RESPONSE)?;
    unmask_worked(rt, "Unmask, L=3", 3, &RESPONSE_OF_THREE)?;
    setup_refused(rt)?;
    zero_vectors(rt)?;
    unmask_refused(rt)
}
