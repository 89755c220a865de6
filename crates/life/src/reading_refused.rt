// Inventory and Read with any lengths, Inventory of other marks, and Read of damaged records.
use cases::{Archive, LIVED};
use std::io;

fn inventory(
    rt: &impl Print,
    label: &str,
    expected: u64,
    layout: u8,
    len: usize,
) -> io::Result<()> {
    let s = Archive::of(&LIVED).with_byte(0, layout);
    cases::refused_into(rt, label, expected, len, |out| {
        archive::inventory(s.as_slice(), out)
    })
}

// The first life's archive with other fill marks.
fn listed(rt: &impl Print, label: &str, marks: u8, count: u64, list: [u8; 6]) -> io::Result<()> {
    let s = Archive::of(&LIVED).with_byte(12, marks);
    let mut got = [0xffu8; 6];
    let found = archive::inventory(s.as_slice(), &mut got);
    cases::counted(rt, label, count, found)?;
    cases::bytes(rt, label, &list, &got)
}

fn read(
    rt: &impl Print,
    label: &str,
    expected: u64,
    at: usize,
    b: u8,
    len: usize,
) -> io::Result<()> {
    let s = Archive::of(&LIVED).with_byte(at, b);
    cases::refused_into(rt, label, expected, len, |out| {
        reading::read(s.as_slice(), out)
    })
}

// Record contents are not examined: a file solves for the places taken, whatever they hold.
fn damaged(rt: &impl Print, label: &str, at: usize, b: u8, file: [u8; 2]) -> io::Result<()> {
    let s = Archive::of(&LIVED).with_byte(at, b);
    let mut got = [0u8; 2];
    let done = reading::read(s.as_slice(), &mut got);
    cases::counted(rt, label, 3, done)?;
    cases::bytes(rt, label, &file, &got)
}

pub fn run(rt: &impl Print) -> io::Result<()> {
    inventory(rt, "Inventory, list one short", 2, 0x10, 5)?;
    inventory(rt, "Inventory, list one long", 2, 0x10, 7)?;
    inventory(rt, "Inventory, no list", 2, 0x10, 0)?;
    inventory(rt, "Inventory, bad archive and no list", 3, 0x30, 0)?;
    listed(
        rt,
        "Inventory, first and last place",
        0x84,
        2,
        [0, 17, 0, 0, 0, 0],
    )?;
    listed(
        rt,
        "Inventory, place 1 of each node",
        0x54,
        3,
        [1, 9, 17, 0, 0, 0],
    )?;
    listed(rt, "Inventory, all places", 0xfc, 6, [0, 1, 8, 9, 16, 17])?;
    listed(rt, "Inventory, no place", 0x00, 0, [0; 6])?;
    read(rt, "Read, file one short", 2, 0, 0x10, 1)?;
    read(rt, "Read, file one long", 2, 0, 0x10, 3)?;
    read(rt, "Read, no file", 2, 12, 0x30, 0)?;
    read(
        rt,
        "Read, node 1 alone, one of its rows zero",
        8,
        12,
        0x30,
        2,
    )?;
    read(rt, "Read, no place filled", 8, 12, 0x00, 2)?;
    damaged(rt, "Read, a data byte damaged", 30, 0x00, [0x84, 0xbd])?;
    damaged(rt, "Read, a row element damaged", 33, 0x00, [0x3c, 0x20])
}
