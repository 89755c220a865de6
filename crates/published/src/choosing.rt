// The greedy choice among five rows of two elements, each behind a byte that is no element. The third is twice the second.
use choice::{Candidates, Rows};
use std::io;

const TABLE: [u8; 15] = [
    0xff, 0x00, 0x00, 0xff, 0x02, 0x03, 0xff, 0x04, 0x06, 0xff, 0x01, 0x00, 0xff, 0x05, 0x05,
];

// How many rows are taken, how many candidates were consulted, the numbers of two rows, and their elements.
fn chosen(
    rt: &impl Print,
    label: &str,
    expected: &[u8],
    candidates: impl Candidates,
) -> io::Result<()> {
    let rows = Rows {
        bytes: &TABLE,
        start: 1,
        stride: 3,
        count: 5,
        m: 2,
    };
    let c = rows.choose(candidates);
    let taken = rows.rows_of(c.numbers, c.count);
    cases::bytes(
        rt,
        label,
        expected,
        &[
            (c.count % 256) as u8,
            (c.consulted % 256) as u8,
            c.numbers[0],
            c.numbers[1],
            taken[0][0],
            taken[0][1],
            taken[1][0],
            taken[1][1],
        ],
    )
}

pub fn run(rt: &impl Print) -> io::Result<()> {
    chosen(
        rt,
        "Choice among five rows",
        &[2, 4, 1, 3, 2, 3, 1, 0],
        [1u8; 48],
    )?;
    let mut candidates = [true; 48];
    candidates[1] = false;
    chosen(
        rt,
        "Without the second",
        &[2, 3, 2, 3, 4, 6, 1, 0],
        candidates,
    )?;
    candidates[2] = false;
    candidates[4] = false;
    chosen(
        rt,
        "The first and the fourth alone",
        &[1, 2, 3, 0, 1, 0, 0, 0],
        candidates,
    )?;
    chosen(rt, "No candidate", &[0, 0, 0, 0, 0, 0, 0, 0], [0u8; 48])
}
