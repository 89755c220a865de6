// Plan on the archives at the end of the lives, where node 1 holds the rows 53 ca and 00 00, node 2 f3 fe and 72 fb, and node 0 none; and
// on one of one place a node, with the rows 02 03, 04 06 and 01 00. Thetas, Repair with them, and every refusal.
use super::one_place::encoded;
use cases::{Archive, LIVED, LIVED_OF_THREE, Lent, first};
use std::io;

// A call that is done gives these thetas.
fn planned(
    rt: &impl Print,
    label: &str,
    s: &Archive,
    helpers: &[u8],
    q: usize,
    gammas: &[u8],
    rows: &[u8],
    expected: &[u8],
) -> io::Result<Lent> {
    let mut thetas = Lent::filled(0xa5, expected.len());
    let answer = planning::plan(
        s.as_slice(),
        helpers,
        q,
        gammas,
        rows,
        thetas.as_mut_slice(),
    );
    cases::answered(rt, label, 0, answer)?;
    cases::bytes(rt, "Its thetas", expected, thetas.as_slice())?;
    Ok(thetas)
}

// A call that is refused writes nothing.
fn refused(
    rt: &impl Print,
    label: &str,
    expected: u64,
    s: &Archive,
    helpers: &[u8],
    q: usize,
    gammas: &[u8],
    rows: &[u8],
    count: usize,
) -> io::Result<()> {
    cases::refused_into(rt, label, expected, count, |out| {
        planning::plan(s.as_slice(), helpers, q, gammas, rows, out)
    })
}

// Repair of node 0 by a plan, with one tag: half as many blocks of six bytes as thetas. The rows that it then has.
fn repaired(
    rt: &impl Print,
    helpers: &[u8],
    q: usize,
    gammas: &[u8],
    thetas: &Lent,
    scratch: &mut [u8],
    rows: &[u8],
) -> io::Result<()> {
    let mut s = Archive::of(&LIVED);
    let answer = coding::repair(
        s.as_mut_slice(),
        0,
        helpers,
        q,
        gammas,
        thetas.as_slice(),
        scratch,
    );
    cases::answered(rt, "Repair by that plan", 0, answer)?;
    let got = [s.bytes[21], s.bytes[22], s.bytes[27], s.bytes[28]];
    cases::bytes(rt, "Its rows", rows, &got)
}

fn from_filled(rt: &impl Print, s: &Archive) -> io::Result<()> {
    let thetas = planned(
        rt,
        "Plan from node 2",
        s,
        &[2],
        2,
        &[1, 0, 0, 1],
        &[0x01, 0x00, 0x02, 0x03],
        &[0xea, 0x66, 0x82, 0xe8],
    )?;
    repaired(
        rt,
        &[2],
        2,
        &[1, 0, 0, 1],
        &thetas,
        &mut [0; 12],
        &[0x01, 0x00, 0x02, 0x03],
    )
}

fn life(rt: &impl Print) -> io::Result<()> {
    let s = Archive::of(&LIVED);
    from_filled(rt, &s)?;
    planned(
        rt,
        "Plan from node 1, rows within its own",
        &s,
        &[1],
        2,
        &[1, 0, 0, 1],
        &[0x53, 0xca, 0xa6, 0x8f],
        &[0x01, 0x02, 0x00, 0x00],
    )?;
    planned(
        rt,
        "Plan with a helper named twice",
        &s,
        &[2, 2],
        1,
        &[1, 0, 0, 1],
        &[0x00, 0x00, 0x01, 0x00],
        &[0x00, 0xea, 0x00, 0x82],
    )?;
    Ok(())
}

fn both_helpers(rt: &impl Print) -> io::Result<()> {
    let gammas = [0x01, 0x08, 0x0f, 0x16, 0x1d, 0x24, 0x2b, 0x32];
    let thetas = planned(
        rt,
        "Plan from nodes 1 and 2, two blocks depend",
        &Archive::of(&LIVED),
        &[1, 2],
        2,
        &gammas,
        &[0x01, 0x00, 0x02, 0x03],
        &[0xba, 0x95, 0x00, 0x00, 0x4d, 0xe4, 0x00, 0x00],
    )?;
    repaired(
        rt,
        &[1, 2],
        2,
        &gammas,
        &thetas,
        &mut [0; 24],
        &[0x01, 0x00, 0x02, 0x03],
    )
}

fn of_three(rt: &impl Print) -> io::Result<()> {
    planned(
        rt,
        "Plan from node 2, L=3",
        &Archive::of(&LIVED_OF_THREE),
        &[2],
        2,
        &[1, 0, 0, 1],
        &[0x01, 0x00, 0x02, 0x03],
        &[0xea, 0x66, 0x82, 0xe8],
    )?;
    Ok(())
}

fn out_of_reach(rt: &impl Print) -> io::Result<()> {
    let s = Archive::of(&LIVED);
    refused(
        rt,
        "Plan, rows that node 1 does not reach",
        12,
        &s,
        &[1],
        2,
        &[1, 0, 0, 1],
        &[0x01, 0x00, 0x02, 0x03],
        4,
    )?;
    refused(
        rt,
        "Plan, the last row alone not reached",
        12,
        &s,
        &[1],
        2,
        &[1, 0, 0, 1],
        &[0x53, 0xca, 0x01, 0x00],
        4,
    )
}

fn one_place(rt: &impl Print) -> io::Result<()> {
    let s = encoded(3, 36, &[[0x02, 0x03], [0x04, 0x06], [0x01, 0x00]]);
    planned(
        rt,
        "Plan, the second block depends",
        &s,
        &[0, 1, 2],
        1,
        &[1, 1, 1],
        &[0x00, 0x03],
        &[1, 0, 2],
    )?;
    planned(
        rt,
        "Plan, a first block of zeros",
        &s,
        &[0, 1, 2],
        1,
        &[0, 1, 1],
        &[0x00, 0x03],
        &[0x00, 0x8d, 0x02],
    )?;
    planned(
        rt,
        "Plan, in the helpers' order",
        &s,
        &[1, 0],
        1,
        &[1, 1],
        &[0x02, 0x03],
        &[0x8d, 0x00],
    )?;
    row_beside(rt, &s)
}

fn row_beside(rt: &impl Print, s: &Archive) -> io::Result<()> {
    refused(
        rt,
        "Plan, a row beside theirs",
        12,
        s,
        &[0, 1],
        1,
        &[1, 1],
        &[0x01, 0x00],
        2,
    )
}

// So many helpers, of which the first is named, gammas, row bytes and thetas; all else is ones.
fn refused_by(
    rt: &impl Print,
    label: &str,
    expected: u64,
    helpers: usize,
    helper: u8,
    q: usize,
    gammas: usize,
    rows: usize,
    thetas: usize,
) -> io::Result<()> {
    let ones = [1u8; 64];
    refused(
        rt,
        label,
        expected,
        &Archive::of(&LIVED),
        Lent::filled(1, helpers).with_start(&[helper]).as_slice(),
        q,
        first(&ones, gammas),
        first(&ones, rows),
        thetas,
    )
}

// 1, P or Q; 2, a length; each before what stands behind it.
fn sizes(rt: &impl Print) -> io::Result<()> {
    refused_by(rt, "Plan, no helper", 1, 0, 1, 1, 0, 4, 0)?;
    refused_by(rt, "Plan, 6 helpers", 1, 6, 1, 1, 12, 4, 12)?;
    refused_by(rt, "Plan, Q=0", 1, 1, 1, 0, 0, 4, 0)?;
    refused_by(rt, "Plan, Q=9", 1, 1, 1, 9, 18, 4, 18)?;
    refused_by(rt, "Plan, Q=2^64-1", 1, 1, 3, usize::MAX, 0, 0, 0)?;
    refused_by(rt, "Plan, gammas one short", 2, 1, 1, 1, 1, 4, 2)?;
    refused_by(rt, "Plan, gammas one long", 2, 1, 1, 1, 3, 4, 2)?;
    refused_by(rt, "Plan, rows one short", 2, 1, 1, 1, 2, 3, 2)?;
    refused_by(rt, "Plan, rows one long", 2, 1, 3, 1, 2, 5, 2)?;
    refused_by(rt, "Plan, no thetas", 2, 1, 1, 1, 2, 4, 0)?;
    refused_by(rt, "Plan, thetas one long", 2, 1, 0, 1, 2, 4, 3)
}

// 4 for a helper that is not there, 5 for one with an empty place, 3 before all else.
fn places(rt: &impl Print) -> io::Result<()> {
    refused_by(rt, "Plan, helper 3", 4, 1, 3, 1, 2, 4, 2)?;
    refused_by(rt, "Plan, helper 255", 4, 2, 255, 1, 4, 4, 4)?;
    refused_by(rt, "Plan, an empty helper", 5, 2, 0, 1, 4, 4, 4)?;
    let s = Archive::of(&LIVED);
    refused(
        rt,
        "Plan, layout 3",
        3,
        &s.with_byte(0, 0x30),
        &[1],
        9,
        &[],
        &[],
        0,
    )?;
    refused(
        rt,
        "Plan, archive one short",
        3,
        &s.with_len(53),
        &[3],
        1,
        &[1],
        &[],
        2,
    )?;
    refused(
        rt,
        "Plan, no archive",
        3,
        &s.with_len(0),
        &[],
        0,
        &[],
        &[],
        0,
    )
}

pub fn run(rt: &impl Print) -> io::Result<()> {
    life(rt)?;
    both_helpers(rt)?;
    of_three(rt)?;
    out_of_reach(rt)?;
    one_place(rt)?;
    sizes(rt)?;
    places(rt)
}
