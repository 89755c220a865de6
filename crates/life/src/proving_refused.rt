// Prove with any lengths and messages, on the archive of the first life in numbers; with any lengths on that of the second.
use cases::{CHALLENGE, LIVED, LIVED_OF_THREE, first};
use std::io;

// A refused Prove with buffers of these lengths, each of at most 64.
fn prove_on(
    rt: &impl Print,
    label: &str,
    expected: u64,
    archive: &[u8],
    message: &[u8],
    mask_key: usize,
    elements: usize,
    seed: usize,
    response: usize,
) -> io::Result<()> {
    let ones = [1u8; 64];
    cases::refused_into(rt, label, expected, response, |out| {
        proving::prove(
            archive,
            first(&ones, mask_key),
            first(&ones, elements),
            first(&ones, seed),
            message,
            out,
        )
    })
}

fn prove(
    rt: &impl Print,
    label: &str,
    expected: u64,
    message: &[u8],
    mask_key: usize,
    elements: usize,
    seed: usize,
    response: usize,
) -> io::Result<()> {
    prove_on(
        rt, label, expected, &LIVED, message, mask_key, elements, seed, response,
    )
}

fn lengths(rt: &impl Print) -> io::Result<()> {
    prove(
        rt,
        "Prove, mask key one short",
        2,
        &CHALLENGE,
        31,
        2,
        11,
        17,
    )?;
    prove(rt, "Prove, no mask key", 2, &CHALLENGE, 0, 2, 11, 17)?;
    prove(
        rt,
        "Prove, elements one short",
        2,
        &CHALLENGE,
        32,
        1,
        11,
        17,
    )?;
    prove(rt, "Prove, elements one long", 2, &CHALLENGE, 32, 3, 11, 17)?;
    prove(rt, "Prove, seed one short", 2, &CHALLENGE, 32, 2, 10, 17)?;
    prove(rt, "Prove, seed one long", 2, &CHALLENGE, 32, 2, 12, 17)?;
    prove(
        rt,
        "Prove, response one short",
        2,
        &CHALLENGE,
        32,
        2,
        11,
        16,
    )?;
    prove(rt, "Prove, response one long", 2, &CHALLENGE, 32, 2, 11, 18)?;
    prove(rt, "Prove, no response", 2, &CHALLENGE, 32, 2, 11, 0)
}

// Three tags: 6 elements, a response of 21 bytes.
fn prove_of_three(
    rt: &impl Print,
    label: &str,
    elements: usize,
    response: usize,
) -> io::Result<()> {
    prove_on(
        rt,
        label,
        2,
        &LIVED_OF_THREE,
        &CHALLENGE,
        32,
        elements,
        11,
        response,
    )
}

fn lengths_of_three(rt: &impl Print) -> io::Result<()> {
    prove_of_three(rt, "Prove, L=3, elements one short", 5, 21)?;
    prove_of_three(rt, "Prove, L=3, elements one long", 7, 21)?;
    prove_of_three(rt, "Prove, L=3, elements of one tag", 2, 21)?;
    prove_of_three(rt, "Prove, L=3, response one short", 6, 20)?;
    prove_of_three(rt, "Prove, L=3, response one long", 6, 22)?;
    prove_of_three(rt, "Prove, L=3, response of one tag", 6, 17)
}

// With every length right.
fn asked(rt: &impl Print, label: &str, expected: u64, message: &[u8]) -> io::Result<()> {
    prove(rt, label, expected, message, 32, 2, 11, 17)
}

// 9, malformed, before 2, a length; 4, node or a place, after it; 5, a named place empty.
fn messages(rt: &impl Print) -> io::Result<()> {
    prove(rt, "Prove, no challenge", 9, &[], 0, 0, 0, 0)?;
    asked(rt, "Prove, challenge of one byte", 9, &[0x14])?;
    asked(rt, "Prove, challenge of kind 2", 9, &[0x24, 0x20, 0x04])?;
    asked(rt, "Prove, challenge to node 6", 9, &[0x1c, 0x20, 0x04])?;
    asked(rt, "Prove, challenge of no item", 9, &[0x14, 0x00])?;
    asked(
        rt,
        "Prove, challenge one byte long",
        9,
        &[0x14, 0x20, 0x04, 0],
    )?;
    asked(
        rt,
        "Prove, challenge with a last bit set",
        9,
        &[0x14, 0x20, 0x05],
    )?;
    asked(rt, "Prove, challenge to node 3", 4, &[0x16, 0x20, 0x04])?;
    asked(rt, "Prove, challenge to place 2", 4, &[0x14, 0x28, 0x04])?;
    asked(rt, "Prove, challenge to place 7", 4, &[0x10, 0x3c, 0x04])?;
    asked(
        rt,
        "Prove, challenge to an empty place",
        5,
        &[0x10, 0x20, 0x04],
    )
}

pub fn run(rt: &impl Print) -> io::Result<()> {
    lengths(rt)?;
    messages(rt)?;
    lengths_of_three(rt)
}
