// The lives in numbers: every answer, and the archive, the list, the response and the file at their end.
use cases::{
    Archive, CHALLENGE, ID, LIVED, LIVED_OF_THREE, Lent, RESPONSE, RESPONSE_OF_THREE, counting_key,
};
use std::io;

// The repair blocks that the accepted Repair leaves in its scratch buffer, of one tag and of three.
const BLOCKS: [u8; 24] = *b"\x48\x11\x60\x11\x18\x33\
    \xcd\x23\xe8\x23\x3a\x9e\
    \x65\xed\x69\xed\xd1\xe6\
    \x54\xd5\x87\xd5\x67\xcc";

const BLOCKS_OF_THREE: [u8; 32] = *b"\x48\x11\x60\x11\x18\x33\xad\x7a\
    \xcd\x23\xe8\x23\x3a\x9e\xfb\xd5\
    \x65\xed\x69\xed\xd1\xe6\x87\xa2\
    \x54\xd5\x87\xd5\x67\xcc\x20\x01";

fn opened(
    rt: &impl Print,
    label: &str,
    layout: usize,
    tags: usize,
    len: usize,
) -> io::Result<Archive> {
    let mut s = Archive::filled(0xff, len);
    let answer = archive::open(layout, 3, 2, 2, 3, tags, &ID, s.as_mut_slice());
    cases::answered(rt, label, 0, answer)?;
    Ok(s)
}

// Encode of the file 57 01, or of another that starts with `first`.
fn encode(
    rt: &impl Print,
    label: &str,
    expected: u64,
    s: &mut Archive,
    node: usize,
    place: usize,
    first: u8,
    row: &[u8],
) -> io::Result<()> {
    let answer = coding::encode(
        s.as_mut_slice(),
        node,
        place,
        &[first, 0x01],
        &[0x01, 0x00, 0x00, 0x04],
        &counting_key(0),
        row,
    );
    cases::answered(rt, label, expected, answer)
}

fn encode_nothing(rt: &impl Print, s: &mut Archive) -> io::Result<()> {
    let answer = coding::encode(s.as_mut_slice(), 1, 0, &[], &[], &[], &[]);
    cases::answered(rt, "Encode of empty lists", 2, answer)
}

// Node 2 from nodes 0 and 1, Q=2; what the scratch buffer of zeros then holds.
fn repair(
    rt: &impl Print,
    label: &str,
    expected: u64,
    s: &mut Archive,
    blocks: &[u8],
) -> io::Result<()> {
    let mut scratch = Lent::filled(0, blocks.len());
    let answer = coding::repair(
        s.as_mut_slice(),
        2,
        &[0, 1],
        2,
        &[0x01, 0x08, 0x0f, 0x16, 0x1d, 0x24, 0x2b, 0x32],
        &[0x03, 0x20, 0x3d, 0x5a, 0x77, 0x94, 0xb1, 0xce],
        scratch.as_mut_slice(),
    );
    cases::answered(rt, label, expected, answer)?;
    cases::bytes(rt, "Repair's scratch buffer", blocks, scratch.as_slice())
}

fn lose(
    rt: &impl Print,
    label: &str,
    expected: u64,
    s: &mut Archive,
    node: usize,
) -> io::Result<()> {
    let answer = archive::lose(s.as_mut_slice(), node);
    cases::answered(rt, label, expected, answer)
}

fn fill(rt: &impl Print, s: &mut Archive) -> io::Result<()> {
    encode(rt, "Encode", 0, s, 0, 0, 0x57, &[1, 0])?;
    encode(rt, "Encode, place filled", 6, s, 0, 0, 0x58, &[1, 1])?;
    encode(rt, "Encode", 0, s, 0, 1, 0x57, &[2, 3])?;
    encode_nothing(rt, s)?;
    encode(rt, "Encode", 0, s, 1, 0, 0x57, &[0x53, 0xca])
}

fn live(rt: &impl Print, s: &mut Archive, blocks: &[u8]) -> io::Result<()> {
    fill(rt, s)?;
    let none = Lent::filled(0, blocks.len());
    repair(rt, "Repair, helper's place empty", 5, s, none.as_slice())?;
    encode(rt, "Encode", 0, s, 1, 1, 0x57, &[0, 0])?;
    lose(rt, "Lose, no such node", 4, s, 3)?;
    repair(rt, "Repair", 0, s, blocks)?;
    lose(rt, "Lose", 0, s, 0)
}

fn listed(rt: &impl Print, s: &[u8]) -> io::Result<()> {
    let mut list = [0xffu8; 6];
    let found = archive::inventory(s, &mut list);
    cases::answered(rt, "Inventory", 0, found)?;
    cases::counted(rt, "Inventory's number", 4, found)?;
    cases::bytes(rt, "Inventory's list", &[8, 9, 16, 17, 0, 0], &list)
}

fn proved(rt: &impl Print, s: &[u8], auxiliary: &[u8], response: &[u8]) -> io::Result<()> {
    let mut got = Lent::filled(0, response.len());
    let answer = proving::prove(
        s,
        &counting_key(100),
        auxiliary,
        &RESPONSE[2..13],
        &CHALLENGE,
        got.as_mut_slice(),
    );
    cases::answered(rt, "Prove", 0, answer)?;
    cases::bytes(rt, "Prove's response", response, got.as_slice())
}

fn read(rt: &impl Print, s: &[u8]) -> io::Result<()> {
    let mut file = [0u8; 2];
    let done = reading::read(s, &mut file);
    cases::answered(rt, "Read", 0, done)?;
    cases::counted(rt, "Read, places consulted", 3, done)?;
    cases::bytes(rt, "Read's file", &[0x57, 0x01], &file)
}

// A life from Open on, and the archive, the repair blocks and the response that it gives.
fn life(
    rt: &impl Print,
    label: &str,
    layout: usize,
    tags: usize,
    expected: &[u8],
    blocks: &[u8],
    auxiliary: &[u8],
    response: &[u8],
) -> io::Result<()> {
    let mut s = opened(rt, label, layout, tags, expected.len())?;
    live(rt, &mut s, blocks)?;
    cases::bytes(rt, "The archive after its life", expected, s.as_slice())?;
    listed(rt, s.as_slice())?;
    proved(rt, s.as_slice(), auxiliary, response)?;
    read(rt, s.as_slice())
}

pub fn run(rt: &impl Print) -> io::Result<()> {
    life(rt, "Open", 1, 1, &LIVED, &BLOCKS, &[0xa7, 0xaa], &RESPONSE)?;
    // It differs from layout 1 in two bytes of the header alone.
    let of_one = Archive::of(&LIVED).with_byte(0, 0x20).with_byte(3, 0x62);
    life(
        rt,
        "Open, layout 2, L=1",
        2,
        1,
        of_one.as_slice(),
        &BLOCKS,
        &[0xa7, 0xaa],
        &RESPONSE,
    )?;
    life(
        rt,
        "Open, layout 2, L=3",
        2,
        3,
        &LIVED_OF_THREE,
        &BLOCKS_OF_THREE,
        &[0xa7, 0xaa, 0xd2, 0x65, 0x74, 0xcb],
        &RESPONSE_OF_THREE,
    )
}
