// Losses: on the archives at the end of the lives, where node 0 is empty, node 1 has one row that is not zero and node 2 two that are
// independent; on archives of one place a node; and every refusal.
use super::one_place::{encoded, opened, second_encoded};
use cases::{Archive, LIVED, LIVED_OF_THREE, Lent};
use std::io;

// Its sets, then zeros, and their number.
fn listed(rt: &impl Print, label: &str, s: &Archive, k: usize, expected: &[u8]) -> io::Result<()> {
    let list = Lent::filled(0, 20).with_start(expected);
    let mut got = [0xa5u8; 20];
    let found = losses::losses(s.as_slice(), k, &mut got);
    cases::counted(rt, label, expected.len() as u64, found)?;
    cases::bytes(rt, "Its sets", list.as_slice(), &got)
}

// A call that is refused writes nothing.
fn refused(
    rt: &impl Print,
    label: &str,
    expected: u64,
    layout: u8,
    k: usize,
    len: usize,
) -> io::Result<()> {
    let s = Archive::of(&LIVED).with_byte(0, layout);
    cases::refused_into(rt, label, expected, len, |out| {
        losses::losses(s.as_slice(), k, out)
    })
}

fn life(rt: &impl Print) -> io::Result<()> {
    let s = Archive::of(&LIVED);
    listed(rt, "Losses after the life, k=0", &s, 0, &[])?;
    listed(rt, "Losses after the life, k=1", &s, 1, &[4])?;
    listed(rt, "Losses after the life, k=2", &s, 2, &[5, 6])?;
    listed(rt, "Losses after the life, k=3", &s, 3, &[7])?;
    let s = Archive::of(&LIVED_OF_THREE);
    listed(
        rt,
        "Losses after the life of three tags, k=2",
        &s,
        2,
        &[5, 6],
    )
}

// The rows 01 00, 00 01, 00 02 and 03 00: the order is not that of the bytes.
fn four_rows(rt: &impl Print) -> io::Result<()> {
    let s = encoded(4, 42, &[[1, 0], [0, 1], [0, 2], [3, 0]]);
    listed(rt, "Losses of four rows, k=2", &s, 2, &[0x09, 0x06])
}

// An empty node counts as a node.
fn none_filled(rt: &impl Print) -> io::Result<()> {
    listed(rt, "Losses, none filled, k=0", &opened(2, 4, 42), 0, &[0])?;
    listed(
        rt,
        "Losses, 6 nodes, none filled, k=3",
        &opened(2, 6, 54),
        3,
        b"\x07\x0b\x13\x23\x0d\x15\x25\x19\x29\x31\x0e\x16\x26\x1a\x2a\x32\x1c\x2c\x34\x38",
    )
}

fn one_filled(rt: &impl Print) -> io::Result<()> {
    let s = second_encoded();
    listed(rt, "Losses, node 1 of 2 filled, k=1", &s, 1, &[2])
}

// 3 before all else, 1 before 2.
fn refusals(rt: &impl Print) -> io::Result<()> {
    refused(rt, "Losses, k=4 of 3 nodes", 1, 0x10, 4, 20)?;
    refused(rt, "Losses, k=2^64-1 and no list", 1, 0x10, usize::MAX, 0)?;
    refused(rt, "Losses, list one short", 2, 0x10, 3, 19)?;
    refused(rt, "Losses, list one long", 2, 0x10, 1, 21)?;
    refused(rt, "Losses, no list", 2, 0x10, 0, 0)?;
    refused(rt, "Losses, layout 3, k=4 and no list", 3, 0x30, 4, 0)
}

pub fn run(rt: &impl Print) -> io::Result<()> {
    life(rt)?;
    four_rows(rt)?;
    none_filled(rt)?;
    one_filled(rt)?;
    refusals(rt)
}
