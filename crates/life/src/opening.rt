// Open: the worked header, and calls with any lengths and numbers.
use cases::{ID, Lent, counting_key, first};
use std::io;

// n=3, m=2, M=1, N=3: the header and the length of 36 bytes.
fn worked(rt: &impl Print) -> io::Result<[u8; 36]> {
    let mut s = [0xffu8; 36];
    let answer = archive::open(1, 3, 2, 1, 3, 1, &ID, &mut s);
    cases::answered(rt, "Open's answer", 0, answer)?;
    cases::bytes(
        rt,
        "Open, n=3, m=2, M=1, N=3: the header's first bytes",
        &[0x10, 0x06, 0x21, 0x60],
        &s[0..4],
    )?;
    cases::bytes(rt, "Open, the id", &ID, &s[4..12])?;
    cases::bytes(
        rt,
        "Open, no marks and zero records",
        &[0u8; 24],
        &s[12..36],
    )?;
    Ok(s)
}

fn fill(rt: &impl Print, s: &mut [u8], node: usize) -> io::Result<()> {
    let answer = coding::encode(
        s,
        node,
        0,
        &[0x57, 0x01],
        &[1, 0, 0, 4],
        &counting_key(0),
        &[1, 0],
    );
    cases::answered(rt, "Encode's answer", 0, answer)
}

fn listed(rt: &impl Print, s: &[u8]) -> io::Result<()> {
    let mut list = [0xffu8; 3];
    let found = archive::inventory(s, &mut list);
    cases::counted(rt, "Nodes 0 and 2 filled: Inventory's number", 2, found)?;
    cases::bytes(
        rt,
        "Nodes 0 and 2 filled: Inventory's list",
        &[0x00, 0x10, 0x00],
        &list,
    )
}

fn marks(rt: &impl Print) -> io::Result<()> {
    let mut s = worked(rt)?;
    fill(rt, &mut s, 0)?;
    fill(rt, &mut s, 2)?;
    cases::bytes(
        rt,
        "Nodes 0 and 2 filled: the marks",
        &[0xa0, 0, 0, 0, 0, 0],
        &s[12..18],
    )?;
    listed(rt, &s)
}

// Layout 2: the header ends with the number of tags. Lose takes such an archive.
fn worked_with_tags(
    rt: &impl Print,
    label: &str,
    tags: usize,
    last: u8,
    len: usize,
) -> io::Result<()> {
    let mut s = Lent::filled(0xff, len);
    let opened = archive::open(2, 3, 2, 1, 3, tags, &ID, s.as_mut_slice());
    cases::answered(rt, "Open's answer", 0, opened)?;
    cases::bytes(rt, label, &[0x20, 0x06, 0x21, last], &s.bytes[0..4])?;
    let lost = archive::lose(s.as_mut_slice(), 2);
    cases::answered(rt, "Lose's answer", 0, lost)
}

// A refused Open with an id and an archive of these lengths, each of at most 64.
fn open(
    rt: &impl Print,
    label: &str,
    expected: u64,
    layout: usize,
    n: usize,
    m: usize,
    places: usize,
    nodes: usize,
    tags: usize,
    id: usize,
    len: usize,
) -> io::Result<()> {
    cases::refused_into(rt, label, expected, len, |out| {
        archive::open(
            layout,
            n,
            m,
            places,
            nodes,
            tags,
            first(&[0xa5; 64], id),
            out,
        )
    })
}

// Under layout 1, with one tag.
fn refused(
    rt: &impl Print,
    label: &str,
    expected: u64,
    n: usize,
    m: usize,
    places: usize,
    nodes: usize,
    id: usize,
    len: usize,
) -> io::Result<()> {
    open(rt, label, expected, 1, n, m, places, nodes, 1, id, len)
}

// With n=3, m=2, M=1, N=1: 23 bytes and the tags.
fn refused_with_tags(
    rt: &impl Print,
    label: &str,
    expected: u64,
    layout: usize,
    tags: usize,
    len: usize,
) -> io::Result<()> {
    open(rt, label, expected, layout, 3, 2, 1, 1, tags, 8, len)
}

// A layout or a number of tags that there is not, with the length that it would have where that fits; then wrong lengths.
fn layouts(rt: &impl Print) -> io::Result<()> {
    refused_with_tags(rt, "Open, layout 0", 1, 0, 1, 24)?;
    refused_with_tags(rt, "Open, layout 3", 1, 3, 1, 24)?;
    refused_with_tags(rt, "Open, layout 15", 1, 15, 1, 24)?;
    refused_with_tags(rt, "Open, layout 18", 1, 18, 1, 24)?;
    refused_with_tags(rt, "Open, layout 2^63", 1, 1 << 63, 1, 24)?;
    refused_with_tags(rt, "Open, layout 1, L=0", 1, 1, 0, 23)?;
    refused_with_tags(rt, "Open, layout 1, L=2", 1, 1, 2, 25)?;
    refused_with_tags(rt, "Open, L=0", 1, 2, 0, 23)?;
    refused_with_tags(rt, "Open, L=11", 1, 2, 11, 34)?;
    refused_with_tags(rt, "Open, L=17", 1, 2, 17, 40)?;
    refused_with_tags(rt, "Open, L=2^63", 1, 2, 1 << 63, 23)?;
    refused_with_tags(rt, "Open, L=3, one byte short", 2, 2, 3, 25)?;
    refused_with_tags(rt, "Open, L=3, one byte long", 2, 2, 3, 27)
}

// 1, sizes, before 2, lengths.
pub fn run(rt: &impl Print) -> io::Result<()> {
    marks(rt)?;
    worked_with_tags(
        rt,
        "Open, layout 2, L=1: the header's first bytes",
        1,
        0x62,
        36,
    )?;
    worked_with_tags(
        rt,
        "Open, layout 2, L=10: the header's first bytes",
        10,
        0x74,
        63,
    )?;
    refused(rt, "Open, n=0", 1, 0, 2, 1, 3, 8, 36)?;
    refused(rt, "Open, n=2", 1, 2, 2, 1, 3, 8, 33)?;
    refused(rt, "Open, n=1025", 1, 1025, 2, 1, 3, 0, 0)?;
    refused(rt, "Open, n=2^63", 1, 1 << 63, 2, 1, 3, 8, 36)?;
    refused(rt, "Open, m=0", 1, 3, 0, 1, 3, 8, 30)?;
    refused(rt, "Open, m=17", 1, 3, 17, 1, 1, 8, 39)?;
    refused(rt, "Open, m=2^64-1", 1, 3, usize::MAX, 1, 3, 8, 36)?;
    refused(rt, "Open, M=0", 1, 3, 2, 0, 3, 8, 18)?;
    refused(rt, "Open, M=9", 1, 3, 2, 9, 1, 8, 0)?;
    refused(rt, "Open, M=2^63", 1, 3, 2, 1 << 63, 2, 8, 18)?;
    refused(rt, "Open, N=0", 1, 3, 2, 1, 0, 8, 18)?;
    refused(rt, "Open, N=7", 1, 3, 2, 1, 7, 8, 60)?;
    refused(rt, "Open, id of 7 bytes", 2, 3, 2, 1, 3, 7, 36)?;
    refused(rt, "Open, no id", 2, 3, 2, 1, 3, 0, 36)?;
    refused(rt, "Open, one byte short", 2, 3, 2, 1, 3, 8, 35)?;
    refused(rt, "Open, one byte long", 2, 3, 2, 1, 3, 8, 37)?;
    refused(rt, "Open, no archive", 2, 3, 2, 1, 3, 8, 0)?;
    layouts(rt)
}
