// Encode, Lose and Repair with any lengths and numbers, on the archive of the first life; Repair's scratch on that of the second.
use cases::{Archive, LIVED, LIVED_OF_THREE, Lent, first};
use std::io;

// A refused Encode with buffers of these lengths, each of at most 64.
fn encode(
    rt: &impl Print,
    label: &str,
    expected: u64,
    node: usize,
    place: usize,
    file: usize,
    padding: usize,
    key: usize,
    row: usize,
) -> io::Result<()> {
    let s = Archive::of(&LIVED);
    let ones = [1u8; 64];
    cases::refused_on(rt, label, expected, &s, |archive| {
        coding::encode(
            archive,
            node,
            place,
            first(&ones, file),
            first(&ones, padding),
            first(&ones, key),
            first(&ones, row),
        )
    })
}

// 2, a length; 4, no such node or place; 6, place filled.
fn encode_refused(rt: &impl Print) -> io::Result<()> {
    encode(rt, "Encode, file one short", 2, 3, 0, 1, 4, 32, 2)?;
    encode(rt, "Encode, file one long", 2, 0, 0, 3, 4, 32, 2)?;
    encode(rt, "Encode, no file", 2, 0, 0, 0, 4, 32, 2)?;
    encode(rt, "Encode, padding one short", 2, 0, 0, 2, 3, 32, 2)?;
    encode(rt, "Encode, padding one long", 2, 0, 0, 2, 5, 32, 2)?;
    encode(rt, "Encode, key one short", 2, 0, 0, 2, 4, 31, 2)?;
    encode(rt, "Encode, key one long", 2, 0, 0, 2, 4, 33, 2)?;
    encode(rt, "Encode, row one short", 2, 0, 0, 2, 4, 32, 1)?;
    encode(rt, "Encode, row one long", 2, 1, 0, 2, 4, 32, 3)?;
    encode(rt, "Encode, node 3", 4, 3, 0, 2, 4, 32, 2)?;
    encode(rt, "Encode, node 2^63", 4, 1 << 63, 0, 2, 4, 32, 2)?;
    encode(rt, "Encode, place 2", 4, 1, 2, 2, 4, 32, 2)?;
    encode(rt, "Encode, place 2^64-1", 4, 1, usize::MAX, 2, 4, 32, 2)?;
    encode(rt, "Encode, place filled", 6, 1, 0, 2, 4, 32, 2)?;
    encode(rt, "Encode, last place filled", 6, 2, 1, 2, 4, 32, 2)
}

fn lose(rt: &impl Print, label: &str, node: usize) -> io::Result<()> {
    let s = Archive::of(&LIVED);
    cases::refused_on(rt, label, 4, &s, |archive| archive::lose(archive, node))
}

fn lose_refused(rt: &impl Print) -> io::Result<()> {
    lose(rt, "Lose, node 3", 3)?;
    lose(rt, "Lose, node 7", 7)?;
    lose(rt, "Lose, node 2^63", 1 << 63)?;
    lose(rt, "Lose, node 2^64-1", usize::MAX)
}

// A refused Repair with a scratch buffer of this length, of at most 64.
fn repair_on(
    rt: &impl Print,
    label: &str,
    expected: u64,
    s: &Archive,
    target: usize,
    helpers: &[u8],
    q: usize,
    gammas: &[u8],
    thetas: &[u8],
    scratch: usize,
) -> io::Result<()> {
    let mut t = *s;
    let mut lent = Lent::filled(0xa5, scratch);
    let answer = coding::repair(
        t.as_mut_slice(),
        target,
        helpers,
        q,
        gammas,
        thetas,
        lent.as_mut_slice(),
    );
    cases::answered(rt, label, expected, answer)?;
    cases::unchanged(rt, s, &t)?;
    cases::kept(rt, &lent)
}

// On the first life's archive, with lists of these lengths, each of at most 64; the first helper is given, the others are node 1.
fn repair(
    rt: &impl Print,
    label: &str,
    expected: u64,
    target: usize,
    helpers: usize,
    helper: u8,
    q: usize,
    gammas: usize,
    thetas: usize,
    scratch: usize,
) -> io::Result<()> {
    let ones = [1u8; 64];
    repair_on(
        rt,
        label,
        expected,
        &Archive::of(&LIVED),
        target,
        Lent::filled(1, helpers).with_start(&[helper]).as_slice(),
        q,
        first(&ones, gammas),
        first(&ones, thetas),
        scratch,
    )
}

// 1, P or Q; 2, a length.
fn repair_sizes(rt: &impl Print) -> io::Result<()> {
    repair(rt, "Repair, no helper", 1, 0, 0, 1, 1, 0, 0, 0)?;
    repair(rt, "Repair, 6 helpers", 1, 0, 6, 1, 1, 12, 12, 36)?;
    repair(rt, "Repair, Q=0", 1, 0, 1, 1, 0, 0, 0, 0)?;
    repair(rt, "Repair, Q=9", 1, 0, 1, 1, 9, 18, 18, 54)?;
    repair(rt, "Repair, Q=2^63", 1, 0, 2, 1, 1 << 63, 0, 0, 0)?;
    repair(rt, "Repair, Q=2^64-1", 1, 0, 1, 1, usize::MAX, 2, 2, 6)?;
    repair(rt, "Repair, gammas one short", 2, 3, 1, 1, 1, 1, 2, 6)?;
    repair(rt, "Repair, gammas one long", 2, 0, 1, 1, 1, 3, 2, 6)?;
    repair(rt, "Repair, no thetas", 2, 0, 1, 1, 1, 2, 0, 6)?;
    repair(rt, "Repair, thetas one long", 2, 0, 1, 1, 1, 2, 3, 6)?;
    repair(rt, "Repair, scratch one short", 2, 0, 1, 1, 1, 2, 2, 5)?;
    repair(rt, "Repair, scratch one long", 2, 0, 1, 1, 1, 2, 2, 7)?;
    repair(rt, "Repair, no scratch", 2, 0, 1, 1, 1, 2, 2, 0)
}

// 4 for a target or a helper that is not there, 6 for a target that is not empty, 5 for a helper with an empty place.
fn repair_places(rt: &impl Print) -> io::Result<()> {
    repair(rt, "Repair, target 3", 4, 3, 1, 1, 1, 2, 2, 6)?;
    repair(rt, "Repair, target 2^64-1", 4, usize::MAX, 1, 1, 1, 2, 2, 6)?;
    repair(rt, "Repair, helper 3", 4, 1, 1, 3, 1, 2, 2, 6)?;
    repair(rt, "Repair, helper 255", 4, 0, 2, 255, 1, 4, 4, 12)?;
    repair(rt, "Repair, target filled", 6, 2, 1, 1, 1, 2, 2, 6)?;
    repair(
        rt,
        "Repair, target filled and helper empty",
        6,
        2,
        1,
        0,
        1,
        2,
        2,
        6,
    )?;
    repair(rt, "Repair, the target as helper", 5, 0, 2, 0, 1, 4, 4, 12)
}

// Node 0 from node 1, Q=1, with three tags: the scratch buffer has 8 bytes.
fn scratch_of_three(rt: &impl Print, label: &str, scratch: usize) -> io::Result<()> {
    repair_on(
        rt,
        label,
        2,
        &Archive::of(&LIVED_OF_THREE),
        0,
        &[1],
        1,
        &[1, 2],
        &[3, 4],
        scratch,
    )
}

fn scratches_of_three(rt: &impl Print) -> io::Result<()> {
    scratch_of_three(rt, "Repair, L=3, scratch one short", 7)?;
    scratch_of_three(rt, "Repair, L=3, scratch one long", 9)?;
    scratch_of_three(rt, "Repair, L=3, scratch of one tag", 6)
}

pub fn run(rt: &impl Print) -> io::Result<()> {
    encode_refused(rt)?;
    lose_refused(rt)?;
    repair_sizes(rt)?;
    repair_places(rt)?;
    scratches_of_three(rt)
}
