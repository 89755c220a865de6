// Gather, Sizes and Rows: shares of the archives at the end of the lives, put together again; archives that are no share of each other; and
// every refusal.
#![tactic(auto)]

use cases::{Archive, LIVED, LIVED_OF_THREE};
use std::io;

// ---- what an archive tells

// The answer of Sizes, and the six numbers after it, modulo 256; they were 99.
fn told(s: &Archive) -> [u8; 7] {
    let mut layout = 99;
    let mut n = 99;
    let mut m = 99;
    let mut places = 99;
    let mut nodes = 99;
    let mut tags = 99;
    let answer = gathering::sizes(
        s.as_slice(),
        &mut layout,
        &mut n,
        &mut m,
        &mut places,
        &mut nodes,
        &mut tags,
    );
    let answer = usize::from(answer::number(answer));
    [answer, layout, n, m, places, nodes, tags].map(|x| (x % 256) as u8)
}

fn sizes(rt: &impl Print, label: &str, s: &Archive, expected: [u8; 7]) -> io::Result<()> {
    cases::bytes(rt, label, &expected, &told(s))
}

fn rows(
    rt: &impl Print,
    label: &str,
    s: &Archive,
    node: usize,
    expected: [u8; 4],
) -> io::Result<()> {
    let mut got = [0xa5u8; 4];
    let answer = gathering::rows(s.as_slice(), node, &mut got);
    cases::answered(rt, label, 0, answer)?;
    cases::bytes(rt, label, &expected, &got)
}

fn rows_refused(
    rt: &impl Print,
    label: &str,
    expected: u64,
    node: usize,
    len: usize,
) -> io::Result<()> {
    cases::refused_into(rt, label, expected, len, |out| {
        gathering::rows(&LIVED, node, out)
    })
}

fn telling(rt: &impl Print) -> io::Result<()> {
    let s = Archive::of(&LIVED);
    let of_three = Archive::of(&LIVED_OF_THREE);
    sizes(rt, "Sizes, layout 1", &s, [0, 1, 3, 2, 2, 3, 1])?;
    sizes(rt, "Sizes, L=3", &of_three, [0, 2, 3, 2, 2, 3, 3])?;
    rows(rt, "Rows of node 0", &s, 0, [0; 4])?;
    rows(rt, "Rows of node 1", &s, 1, [0x53, 0xca, 0, 0])?;
    rows(rt, "Rows of node 2", &s, 2, [0xf3, 0xfe, 0x72, 0xfb])?;
    rows(
        rt,
        "Rows of node 2, L=3",
        &of_three,
        2,
        [0xf3, 0xfe, 0x72, 0xfb],
    )?;
    rows(
        rt,
        "Rows of a place that is not marked",
        &s.with_byte(12, 0x34),
        2,
        [0, 0, 0x72, 0xfb],
    )?;
    rows_refused(rt, "Rows, one byte short and no node", 2, 3, 3)?;
    rows_refused(rt, "Rows, one byte long", 2, 1, 5)?;
    rows_refused(rt, "Rows, none", 2, 1, 0)?;
    rows_refused(rt, "Rows of node 3", 4, 3, 4)?;
    rows_refused(rt, "Rows of node 256", 4, 256, 4)?;
    rows_refused(rt, "Rows of node 2^32+1", 4, 4294967297, 4)
}

// ---- shares

// The archive without this node. The answer of Lose is not looked at: what is gathered would not be what is expected.
fn lost(mut s: Archive, node: usize) -> Archive {
    let _ = archive::lose(s.as_mut_slice(), node);
    s
}

// The archive without two nodes: the share of the third.
fn without(s: &Archive, a: usize, b: usize) -> Archive {
    lost(lost(*s, a), b)
}

// It without any.
fn emptied(s: &Archive) -> Archive {
    lost(without(s, 0, 1), 2)
}

fn gather(
    rt: &impl Print,
    label: &str,
    s: &mut Archive,
    share: &Archive,
    node: usize,
) -> io::Result<()> {
    let answer = gathering::gather(s.as_mut_slice(), share.as_slice(), node);
    cases::answered(rt, label, 0, answer)
}

// Each node's share, the last first.
fn together(rt: &impl Print, s: &Archive) -> io::Result<()> {
    let mut all = emptied(s);
    gather(rt, "Gather, node 2", &mut all, &without(s, 0, 1), 2)?;
    gather(rt, "Gather, node 0", &mut all, &without(s, 1, 2), 0)?;
    gather(rt, "Gather, node 1", &mut all, &without(s, 0, 2), 1)?;
    cases::bytes(rt, "The archive of gathered shares", &s.bytes, &all.bytes)
}

// A whole archive serves as a share; node 0 is empty.
fn from_whole(rt: &impl Print, s: &Archive) -> io::Result<()> {
    let mut t = without(s, 0, 1);
    gather(rt, "Gather from an archive", &mut t, s, 1)?;
    cases::bytes(rt, "The archive after it", &s.bytes, &t.bytes)
}

// What stands in an empty place comes along.
fn empty_too(rt: &impl Print) -> io::Result<()> {
    let s = Archive::of(&LIVED).with_byte(18, 0x77);
    let mut t = emptied(&s);
    gather(rt, "Gather of an empty node", &mut t, &s, 0)?;
    cases::bytes(rt, "Its bytes", &without(&s, 1, 2).bytes, &t.bytes)?;
    cases::number(rt, "Its first byte", 0x77, u64::from(t.bytes[18]))
}

fn refused(
    rt: &impl Print,
    label: &str,
    expected: u64,
    s: &Archive,
    share: &Archive,
    node: usize,
) -> io::Result<()> {
    cases::refused_on(rt, label, expected, s, |archive| {
        gathering::gather(archive, share.as_slice(), node)
    })
}

// Into the first life's archive, where node 0 is empty.
fn no_share(rt: &impl Print, label: &str, share: &Archive) -> io::Result<()> {
    refused(rt, label, 3, &Archive::of(&LIVED), share, 0)
}

// Shares of another archive: a byte of the id, the layout, the number of tags; n=4 with m=1, whose length is the same.
fn others(rt: &impl Print) -> io::Result<()> {
    let s = Archive::of(&LIVED);
    no_share(
        rt,
        "Gather, the first byte of the id",
        &s.with_byte(4, 0xff),
    )?;
    no_share(rt, "Gather, a byte of the id", &s.with_byte(7, 0xff))?;
    no_share(
        rt,
        "Gather, the last byte of the id",
        &s.with_byte(11, 0xff),
    )?;
    let layout_2 = s.with_byte(0, 0x20).with_byte(3, 0x62);
    no_share(rt, "Gather, layout 2 with one tag", &layout_2)?;
    no_share(rt, "Gather, three tags", &Archive::of(&LIVED_OF_THREE))?;
    let other_sizes = s.with_byte(1, 0x08).with_byte(2, 0x12);
    sizes(
        rt,
        "Sizes, n=4 and m=1",
        &other_sizes,
        [0, 1, 4, 1, 2, 3, 1],
    )?;
    no_share(rt, "Gather, n=4 and m=1", &other_sizes)?;
    no_share(rt, "Gather, a share one byte short", &s.with_len(53))?;
    no_share(rt, "Gather, a share one byte long", &s.with_len(55))
}

// Layout 2, m=2, two places a node and three nodes, all empty; the header's second and fourth byte. 60 bytes.
fn empty(second: u8, fourth: u8) -> Archive {
    Archive::filled(0, 60).with_start(&[0x20, second, 0x22, fourth])
}

// An archive of n=4 and L=1 and one of n=3 and L=2 have the same length.
fn same_length(rt: &impl Print) -> io::Result<()> {
    let longer = empty(0x08, 0x62);
    let tagged = empty(0x06, 0x64);
    sizes(rt, "Sizes, n=4 and L=1", &longer, [0, 2, 4, 2, 2, 3, 1])?;
    sizes(rt, "Sizes, n=3 and L=2", &tagged, [0, 2, 3, 2, 2, 3, 2])?;
    refused(rt, "Gather, L=2 for n=4", 3, &longer, &tagged, 0)
}

// ---- bad archives

fn gather_into(rt: &impl Print, s: &Archive) -> io::Result<u8> {
    cases::answer_on(rt, s, |archive| gathering::gather(archive, &LIVED, 0))
}

fn gather_from(rt: &impl Print, share: &Archive) -> io::Result<u8> {
    cases::answer_on(rt, &Archive::of(&LIVED), |archive| {
        gathering::gather(archive, share.as_slice(), 0)
    })
}

fn rows_of(rt: &impl Print, s: &Archive) -> io::Result<u8> {
    cases::answer_into(rt, 4, |out| gathering::rows(s.as_slice(), 1, out))
}

// Sizes, Gather into it and from it, and Rows.
fn bad(rt: &impl Print, label: &str, s: &Archive) -> io::Result<()> {
    sizes(rt, label, s, [3, 99, 99, 99, 99, 99, 99])?;
    let got = [gather_into(rt, s)?, gather_from(rt, s)?, rows_of(rt, s)?];
    cases::bytes(rt, label, &[3; 3], &got)
}

fn bad_archives(rt: &impl Print) -> io::Result<()> {
    let s = Archive::of(&LIVED);
    bad(rt, "Shares, no archive", &s.with_len(0))?;
    bad(rt, "Shares, 17 bytes", &s.with_len(17))?;
    bad(rt, "Shares, one byte short", &s.with_len(53))?;
    bad(rt, "Shares, one byte long", &s.with_len(55))?;
    bad(rt, "Shares, layout 3", &s.with_byte(0, 0x30))?;
    bad(rt, "Shares, layout 2 and L=0", &s.with_byte(0, 0x20))?;
    bad(rt, "Shares, m=18", &s.with_byte(1, 0x07))?;
    bad(rt, "Shares, a spare bit set", &s.with_byte(3, 0x61))?;
    bad(
        rt,
        "Shares, a mark past the places set",
        &s.with_byte(12, 0x3e),
    )
}

// ---- nodes

// From the first life's archive into it with other fill marks.
fn no_gather(
    rt: &impl Print,
    label: &str,
    expected: u64,
    marks: u8,
    node: usize,
) -> io::Result<()> {
    let share = Archive::of(&LIVED);
    let s = share.with_byte(12, marks);
    refused(rt, label, expected, &s, &share, node)
}

// No such node, before a filled place; and nodes of which one place is filled.
fn nodes(rt: &impl Print) -> io::Result<()> {
    no_gather(rt, "Gather, node 3", 4, 0x3c, 3)?;
    no_gather(rt, "Gather, node 256", 4, 0x3c, 256)?;
    no_gather(rt, "Gather, node 2^32", 4, 0x3c, 4294967296)?;
    no_gather(rt, "Gather, node 2^64-1", 4, 0x3c, usize::MAX)?;
    no_gather(rt, "Gather, a filled node", 6, 0x3c, 2)?;
    no_gather(rt, "Gather, its first place filled", 6, 0x80, 0)?;
    no_gather(rt, "Gather, its last place filled", 6, 0x40, 0)?;
    let share = Archive::of(&LIVED);
    let mut s = share.with_byte(12, 0x20);
    gather(rt, "Gather, the next node filled", &mut s, &share, 0)
}

fn main(rt: HostRuntime) -> io::Result<()> {
    telling(&rt)?;
    together(&rt, &Archive::of(&LIVED))?;
    together(&rt, &Archive::of(&LIVED_OF_THREE))?;
    from_whole(&rt, &Archive::of(&LIVED))?;
    empty_too(&rt)?;
    others(&rt)?;
    same_length(&rt)?;
    bad_archives(&rt)?;
    nodes(&rt)
}
