// Rows and elimination: the worked rows 01 00 and 02 03, and rows that do not determine a vector.
// Of the first k rows, m elements each; both are at most 16.
use field::Tables;
use std::io;

fn rank(
    rt: &impl Print,
    label: &str,
    expected: u64,
    a: [[u8; 16]; 16],
    k: usize,
    m: usize,
) -> io::Result<()> {
    let found = linear::reduce(a, k.min(16), m.min(16));
    cases::number(rt, label, expected, found.rank as u64)
}

// The first two bytes of the first two combinations.
fn combinations(a: [[u8; 16]; 16]) -> [u8; 4] {
    let c = linear::reduce(a, 2, 2).combinations;
    [c[0][0], c[0][1], c[1][0], c[1][1]]
}

// A row of two elements is kept as sixteen bytes; its product reads the two.
fn kept(rt: &impl Print) -> io::Result<()> {
    let row = linear::row_from(&[0x01, 0x02, 0x03, 0x04][1..3]);
    cases::bytes(
        rt,
        "Row 02 03 as it is kept",
        &[2, 3, 0, 0, 0, 0, 0, 0, 0, 0, 0, 0, 0, 0, 0, 0],
        &row.bytes,
    )?;
    let tables = Tables::new();
    cases::number(
        rt,
        "Row 02 03 times 02 03",
        1,
        u64::from(linear::dot(&tables, row, &[0x02, 0x03, 0x04][..2])),
    )
}

// Zeros where a pivot is sought first: the pivot stands in a later row, or in a later row and column.
fn zero_pivots(rt: &impl Print) -> io::Result<()> {
    let mut a = [[0u8; 16]; 16];
    a[0][1] = 1;
    a[1][0] = 1;
    rank(rt, "Rank of 00 01 and 01 00", 2, a, 2, 2)?;
    cases::bytes(
        rt,
        "Combinations that solve them",
        &[0x00, 0x01, 0x01, 0x00],
        &combinations(a),
    )?;
    let mut b = [[0u8; 16]; 16];
    b[1][1] = 5;
    rank(rt, "Rank of 00 00", 0, b, 1, 2)?;
    rank(rt, "Rank of 00 00 and 00 05", 1, b, 2, 2)
}

pub fn run(rt: &impl Print) -> io::Result<()> {
    let mut a = [[0u8; 16]; 16];
    rank(rt, "Rank of no row, m=2", 0, a, 0, 2)?;
    rank(rt, "Rank of sixteen rows of zeros, m=16", 0, a, 16, 16)?;
    zero_pivots(rt)?;
    a[0][0] = 1;
    rank(rt, "Rank of 01 00", 1, a, 1, 2)?;
    a[1][0] = 2;
    a[1][1] = 3;
    rank(rt, "Rank of 01 00 and 02 03", 2, a, 2, 2)?;
    cases::bytes(
        rt,
        "Combinations that solve them",
        &[0x01, 0x00, 0xf7, 0xf6],
        &combinations(a),
    )?;
    a[2][0] = 3;
    a[2][1] = 3;
    rank(rt, "Rank of those and 03 03", 2, a, 3, 2)?;
    rank(rt, "Rank of those and 03 03, m=3", 2, a, 3, 3)?;
    kept(rt)
}
