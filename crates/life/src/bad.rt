// Bad archives: each operation on an archive answers 3 and writes nothing (Gather, Sizes and Rows: the program `shares`).
use cases::{
    Archive, CHALLENGE, LIVED, LIVED_OF_THREE, Lent, RESPONSE, answer_into, answer_on, counting_key,
};
use std::io;

fn encode(rt: &impl Print, s: &Archive) -> io::Result<u8> {
    answer_on(rt, s, |archive| {
        coding::encode(
            archive,
            0,
            0,
            &[0x57, 0x01],
            &[1, 0, 0, 4],
            &counting_key(0),
            &[1, 0],
        )
    })
}

fn lose(rt: &impl Print, s: &Archive) -> io::Result<u8> {
    answer_on(rt, s, |archive| archive::lose(archive, 1))
}

fn repair(rt: &impl Print, s: &Archive) -> io::Result<u8> {
    let mut lent = Lent::filled(0xa5, 6);
    let answer = answer_on(rt, s, |archive| {
        coding::repair(archive, 0, &[1], 1, &[1, 2], &[3, 4], lent.as_mut_slice())
    })?;
    cases::kept(rt, &lent)?;
    Ok(answer)
}

fn inventory(rt: &impl Print, s: &Archive) -> io::Result<u8> {
    answer_into(rt, 6, |list| archive::inventory(s.as_slice(), list))
}

fn losses(rt: &impl Print, s: &Archive) -> io::Result<u8> {
    answer_into(rt, 20, |sets| losses::losses(s.as_slice(), 1, sets))
}

fn prove(rt: &impl Print, s: &Archive) -> io::Result<u8> {
    answer_into(rt, 17, |response| {
        proving::prove(
            s.as_slice(),
            &counting_key(100),
            &[0xa7, 0xaa],
            &RESPONSE[2..13],
            &CHALLENGE,
            response,
        )
    })
}

fn read(rt: &impl Print, s: &Archive) -> io::Result<u8> {
    answer_into(rt, 2, |file| reading::read(s.as_slice(), file))
}

// Encode, Lose, Repair, Inventory, Losses, Prove, Read.
fn refused(rt: &impl Print, label: &str, s: &Archive) -> io::Result<()> {
    let got = [
        encode(rt, s)?,
        lose(rt, s)?,
        repair(rt, s)?,
        inventory(rt, s)?,
        losses(rt, s)?,
        prove(rt, s)?,
        read(rt, s)?,
    ];
    cases::bytes(rt, label, &[3; 7], &got)
}

// n=3, m=2, M=1, N=3 and empty places; the header's first four bytes are `first`, 06, 21, `last`. The length is that which the number of
// tags in the header gives.
fn empty(first: u8, last: u8, len: usize) -> Archive {
    Archive::filled(0, len).with_start(&[first, 0x06, 0x21, last])
}

// One that is not bad: Lose is done, and Read has no row.
fn taken(rt: &impl Print, label: &str, s: &Archive) -> io::Result<()> {
    cases::bytes(rt, label, &[0, 8], &[lose(rt, s)?, read(rt, s)?])
}

// Layouts and numbers of tags; the last bit is spare in both layouts.
fn headers(rt: &impl Print) -> io::Result<()> {
    taken(rt, "Header 10062160, layout 1", &empty(0x10, 0x60, 36))?;
    taken(rt, "Header 20062162, L=1", &empty(0x20, 0x62, 36))?;
    taken(rt, "Header 20062174, L=10", &empty(0x20, 0x74, 63))?;
    refused(rt, "Header 20062160, L=0", &empty(0x20, 0x60, 33))?;
    refused(rt, "Header 20062163, spare bit set", &empty(0x20, 0x63, 36))?;
    refused(rt, "Header 20062176, L=11", &empty(0x20, 0x76, 66))?;
    refused(rt, "Header 20062178, L=12", &empty(0x20, 0x78, 69))?;
    refused(rt, "Header 2006217a, L=13", &empty(0x20, 0x7a, 72))?;
    refused(rt, "Header 2006217c, L=14", &empty(0x20, 0x7c, 75))?;
    refused(rt, "Header 2006217e, L=15", &empty(0x20, 0x7e, 78))?;
    refused(
        rt,
        "Header 10062162, layout 1 with L bits",
        &empty(0x10, 0x62, 36),
    )?;
    refused(
        rt,
        "Header 10062166, layout 1 with L bits",
        &empty(0x10, 0x66, 42),
    )?;
    refused(
        rt,
        "Header 10062161, layout 1, spare bit",
        &empty(0x10, 0x61, 36),
    )?;
    refused(rt, "Header 00062162, layout 0", &empty(0x00, 0x62, 36))?;
    refused(rt, "Header 30062162, layout 3", &empty(0x30, 0x62, 36))?;
    refused(rt, "Header f0062162, layout 15", &empty(0xf0, 0x62, 36))
}

// The second life's archive under other lengths and other headers.
fn of_three(rt: &impl Print) -> io::Result<()> {
    let s = Archive::of(&LIVED_OF_THREE);
    refused(rt, "L=3, one byte short", &s.with_len(65))?;
    refused(rt, "L=3, one byte long", &s.with_len(67))?;
    refused(rt, "L=3, the length of one tag", &s.with_len(54))?;
    refused(rt, "L=3, the header of layout 1", &s.with_byte(0, 0x10))?;
    refused(rt, "L=3, the header of two tags", &s.with_byte(3, 0x64))
}

// The first life's archive under other lengths, other headers and other marks.
fn of_one(rt: &impl Print) -> io::Result<()> {
    let s = Archive::of(&LIVED);
    refused(rt, "No archive", &s.with_len(0))?;
    refused(rt, "Archive of 17 bytes", &s.with_len(17))?;
    refused(rt, "Archive of 18 bytes", &s.with_len(18))?;
    refused(rt, "Archive one byte short", &s.with_len(53))?;
    refused(rt, "Archive one byte long", &s.with_len(55))?;
    refused(rt, "Layout 0", &s.with_byte(0, 0x00))?;
    refused(rt, "Layout 2, L=0", &s.with_byte(0, 0x20))?;
    refused(rt, "n=2", &s.with_byte(1, 0x04))?;
    refused(rt, "n=1027", &s.with_byte(0, 0x18))?;
    refused(rt, "m=0", &s.with_byte(2, 0x02))?;
    refused(rt, "m=18", &s.with_byte(1, 0x07))?;
    refused(rt, "M=0", &s.with_byte(2, 0x20))?;
    refused(rt, "M=10", &s.with_byte(2, 0x2a))?;
    refused(rt, "N=0", &s.with_byte(3, 0x00))?;
    refused(rt, "N=7", &s.with_byte(3, 0xe0))?;
    refused(rt, "N=2", &s.with_byte(3, 0x40))?;
    refused(rt, "A spare bit set", &s.with_byte(3, 0x61))?;
    refused(
        rt,
        "The first mark past the places set",
        &s.with_byte(12, 0x3e),
    )?;
    refused(rt, "The last mark set", &s.with_byte(17, 0x01))
}

pub fn run(rt: &impl Print) -> io::Result<()> {
    of_one(rt)?;
    headers(rt)?;
    of_three(rt)
}
