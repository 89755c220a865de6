// Challenge and Verdict: the lives in numbers, and calls with any lengths and numbers.
use cases::{CHALLENGE, ID, Lent, RESPONSE, RESPONSE_OF_THREE, counting_key, first};
use std::io;

// The rows that the table has for node 2.
const ROWS: [u8; 4] = [0xf3, 0xfe, 0x72, 0xfb];

// Challenges to node 2: both places with the coefficients 05 05, 05 04, 02 01 and 00 00; place 1 alone, with 01.
const EQUAL: [u8; 5] = [0x14, 0x40, 0x14, 0x82, 0x80];

const UNEQUAL: [u8; 5] = [0x14, 0x40, 0x14, 0x82, 0x00];

const DOUBLED: [u8; 5] = [0x14, 0x40, 0x08, 0x80, 0x80];

const ZEROS: [u8; 5] = [0x14, 0x40, 0x00, 0x80, 0x00];

const SECOND: [u8; 3] = [0x14, 0x24, 0x04];

// A Challenge to node 2 that is done, into bytes that are each `before`.
fn challenged(
    rt: &impl Print,
    label: &str,
    sent: &str,
    places: &[u8],
    coefficients: &[u8],
    before: u8,
    expected: &[u8],
) -> io::Result<()> {
    let mut lent = Lent::filled(before, expected.len());
    let answer = message::challenge(2, places, coefficients, lent.as_mut_slice());
    cases::answered(rt, label, 0, answer)?;
    cases::bytes(rt, sent, expected, lent.as_slice())
}

fn challenges(rt: &impl Print) -> io::Result<()> {
    challenged(
        rt,
        "Challenge's answer",
        "Challenge to node 2, places 0 and 1",
        &[0, 1],
        &[0x07, 0xb5],
        0x00,
        &CHALLENGE,
    )?;
    challenged(
        rt,
        "Challenge's answer, one item",
        "Challenge to node 2, place 0, coefficient 01",
        &[0],
        &[1],
        0xff,
        &[0x14, 0x20, 0x04],
    )
}

// A refused Challenge with lists and a message of these lengths, each of at most 64; the first two places are given, the others are 7.
fn challenge(
    rt: &impl Print,
    label: &str,
    expected: u64,
    node: usize,
    places: usize,
    place: u8,
    next: u8,
    coefficients: usize,
    message: usize,
) -> io::Result<()> {
    let named = Lent::filled(7, places).with_start(&[place, next]);
    cases::refused_into(rt, label, expected, message, |out| {
        message::challenge(node, named.as_slice(), first(&[1; 64], coefficients), out)
    })
}

// The order: 2 for lists of unequal length, 9 for fields, 2 for the output.
fn challenge_refused(rt: &impl Print) -> io::Result<()> {
    challenge(rt, "Challenge, lists of 2 and 1", 2, 9, 2, 0, 1, 1, 5)?;
    challenge(rt, "Challenge, node 6", 9, 6, 2, 0, 1, 2, 0)?;
    challenge(rt, "Challenge, node 2^64-1", 9, usize::MAX, 2, 0, 1, 2, 5)?;
    challenge(rt, "Challenge, no item", 9, 2, 0, 0, 1, 0, 2)?;
    challenge(rt, "Challenge, 9 items", 9, 2, 9, 0, 1, 9, 14)?;
    challenge(rt, "Challenge, place 8", 9, 2, 2, 7, 8, 2, 5)?;
    challenge(rt, "Challenge, equal places", 9, 2, 2, 1, 1, 2, 5)?;
    challenge(rt, "Challenge, falling places", 9, 2, 2, 1, 0, 2, 5)?;
    challenge(rt, "Challenge, output one short", 2, 2, 3, 0, 1, 3, 5)?;
    challenge(rt, "Challenge, output one long", 2, 2, 1, 0, 1, 1, 4)?;
    challenge(rt, "Challenge, output of 0 bytes", 2, 2, 1, 0, 1, 1, 0)
}

// Verdict with the lives' key, id and sizes n=3, m=2, M=2, N=3.
fn judge(
    rt: &impl Print,
    label: &str,
    expected: u64,
    rows: &[u8],
    tags: usize,
    message: &[u8],
    response: &[u8],
) -> io::Result<()> {
    let judgement = audit::verdict(
        &counting_key(0),
        &ID,
        3,
        2,
        2,
        3,
        tags,
        rows,
        message,
        response,
    );
    cases::number(rt, label, expected, u64::from(audit::number(judgement)))
}

// On the response of the first life with byte `at` made b.
fn judged(
    rt: &impl Print,
    label: &str,
    expected: u64,
    rows: &[u8],
    at: usize,
    b: u8,
) -> io::Result<()> {
    let mut response = RESPONSE;
    response[at % 17] = b;
    judge(rt, label, expected, rows, 1, &CHALLENGE, &response)
}

fn verdicts(rt: &impl Print) -> io::Result<()> {
    judged(rt, "Verdict: accepted", 0, &ROWS, 0, 0x24)?;
    judged(rt, "Verdict, a masked byte changed", 255, &ROWS, 1, 0x2b)?;
    judged(rt, "Verdict, the mask sum changed", 255, &ROWS, 13, 0x62)?;
    judged(rt, "Verdict, the seed alone changed", 0, &ROWS, 5, 0)?;
    judged(
        rt,
        "Verdict, rows exchanged",
        255,
        &[0x72, 0xfb, 0xf3, 0xfe],
        0,
        0x24,
    )?;
    judged(
        rt,
        "Verdict, rows of 3 bytes",
        2,
        &[0xf3, 0xfe, 0x72],
        0,
        0x24,
    )?;
    judged(rt, "Verdict, response of node 1", 9, &ROWS, 0, 0x22)
}

fn judged_of_three(rt: &impl Print, label: &str, expected: u64, response: &[u8]) -> io::Result<()> {
    judge(rt, label, expected, &ROWS, 3, &CHALLENGE, response)
}

// A masked byte changes by 01, so each equation by the first element of its key vector: 04, 2d, 12. All of them have to hold.
fn verdicts_of_three(rt: &impl Print) -> io::Result<()> {
    let mut response = RESPONSE_OF_THREE;
    judged_of_three(rt, "Verdict, L=3: accepted", 0, &response)?;
    response[1] = 0x2a ^ 0x01;
    judged_of_three(rt, "Verdict, L=3, a masked byte changed", 255, &response)?;
    response[13] = 0x63 ^ 0x04;
    judged_of_three(rt, "Verdict, L=3, mask sum 0 with it", 255, &response)?;
    response[14] = 0xce ^ 0x2d;
    judged_of_three(
        rt,
        "Verdict, L=3, mask sums 0 and 1 with it",
        255,
        &response,
    )?;
    response[15] = 0x2b ^ 0x12;
    judged_of_three(rt, "Verdict, L=3, all mask sums with it", 0, &response)?;
    response[13] = 0x63;
    judged_of_three(
        rt,
        "Verdict, L=3, mask sums 1 and 2 with it",
        255,
        &response,
    )?;
    judged_of_three(rt, "Verdict, L=3, response one short", 2, &response[0..20])?;
    judged_of_three(rt, "Verdict, L=3, response one long", 2, &[0x24u8; 22])?;
    judged_of_three(rt, "Verdict, L=3, response of one tag", 2, &RESPONSE)
}

// Sizes that are refused, or that the challenged node is not among.
fn sized(
    rt: &impl Print,
    label: &str,
    expected: u64,
    n: usize,
    m: usize,
    places: usize,
    nodes: usize,
    tags: usize,
) -> io::Result<()> {
    let judgement = audit::verdict(
        &counting_key(0),
        &ID,
        n,
        m,
        places,
        nodes,
        tags,
        &ROWS,
        &CHALLENGE,
        &RESPONSE,
    );
    cases::number(rt, label, expected, u64::from(audit::number(judgement)))
}

fn sizes(rt: &impl Print) -> io::Result<()> {
    sized(rt, "Verdict, n=2", 1, 2, 2, 2, 3, 1)?;
    sized(rt, "Verdict, m=17", 1, 3, 17, 2, 3, 1)?;
    sized(rt, "Verdict, M=2^63", 1, 3, 2, 1 << 63, 3, 1)?;
    sized(rt, "Verdict, N=0", 1, 3, 2, 2, 0, 1)?;
    sized(rt, "Verdict, L=0", 1, 3, 2, 2, 3, 0)?;
    sized(rt, "Verdict, L=11", 1, 3, 2, 2, 3, 11)?;
    sized(rt, "Verdict, L=2^63", 1, 3, 2, 2, 3, 1 << 63)?;
    sized(rt, "Verdict, N=2", 4, 3, 2, 2, 2, 1)?;
    sized(rt, "Verdict, n=4", 2, 4, 2, 2, 3, 1)
}

fn asked(rt: &impl Print, label: &str, expected: u64, message: &[u8]) -> io::Result<()> {
    judge(rt, label, expected, &ROWS, 1, message, &RESPONSE)
}

fn messages(rt: &impl Print) -> io::Result<()> {
    asked(rt, "Verdict, no challenge", 9, &[])?;
    asked(
        rt,
        "Verdict, challenge of kind 2",
        9,
        &[0x24, 0x40, 0x1c, 0xda, 0x80],
    )?;
    asked(
        rt,
        "Verdict, challenge to node 6",
        9,
        &[0x1c, 0x40, 0x1c, 0xda, 0x80],
    )?;
    asked(rt, "Verdict, challenge of no item", 9, &[0x14, 0x00])?;
    asked(
        rt,
        "Verdict, challenge with equal places",
        9,
        &[0x14, 0x40, 0x1c, 0x1a, 0x80],
    )?;
    asked(
        rt,
        "Verdict, challenge with a last bit set",
        9,
        &[0x14, 0x40, 0x1c, 0xda, 0x81],
    )?;
    asked(
        rt,
        "Verdict, challenge one byte long",
        9,
        &[0x14, 0x40, 0x1c, 0xda, 0x80, 0],
    )?;
    asked(rt, "Verdict, challenge to place 2", 4, &[0x14, 0x28, 0x04])
}

// By two rows, on a response of node 2 that is zeros behind its first byte, as any box can make it.
fn of_zeros(
    rt: &impl Print,
    label: &str,
    expected: u64,
    rows: &[u8],
    message: &[u8],
) -> io::Result<()> {
    let mut response = [0u8; 17];
    response[0] = 0x24;
    judge(rt, label, expected, rows, 1, message, &response)
}

// Combined rows that are zero, and rows of which a part is.
fn zero_rows(rt: &impl Print) -> io::Result<()> {
    of_zeros(rt, "Verdict, equal rows cancel", 11, &[2, 3, 2, 3], &EQUAL)?;
    of_zeros(rt, "Verdict, doubles cancel", 11, &[2, 3, 4, 6], &DOUBLED)?;
    of_zeros(rt, "Verdict, coefficients 00", 11, &[2, 3, 4, 5], &ZEROS)?;
    of_zeros(rt, "Verdict, zero row named", 11, &[2, 3, 0, 0], &SECOND)?;
    of_zeros(
        rt,
        "Verdict, zero row not named",
        255,
        &[0, 0, 2, 3],
        &SECOND,
    )?;
    of_zeros(rt, "Verdict, no row cancels", 255, &[2, 3, 2, 3], &UNEQUAL)?;
    of_zeros(rt, "Verdict, element 0 cancels", 255, &[2, 3, 2, 4], &EQUAL)?;
    of_zeros(rt, "Verdict, element 1 cancels", 255, &[2, 3, 4, 3], &EQUAL)?;
    asked(rt, "Verdict, coefficients 00, any response", 11, &ZEROS)?;
    judge(
        rt,
        "Verdict, L=3, equal rows cancel",
        11,
        &[2, 3, 2, 3],
        3,
        &EQUAL,
        &RESPONSE_OF_THREE,
    )
}

// What is refused before a zero row.
fn before_zero_rows(rt: &impl Print) -> io::Result<()> {
    let zeros = [0u8; 4];
    of_zeros(rt, "Verdict, zeros, no challenge", 9, &zeros, &[])?;
    of_zeros(rt, "Verdict, zeros, rows of 3 bytes", 2, &[0u8; 3], &EQUAL)?;
    of_zeros(
        rt,
        "Verdict, zeros, place 2",
        4,
        &zeros,
        &[0x14, 0x28, 0x04],
    )?;
    judged(rt, "Verdict, zeros, response of node 1", 9, &zeros, 0, 0x22)?;
    judged(rt, "Verdict, zeros", 11, &zeros, 0, 0x24)
}

pub fn run(rt: &impl Print) -> io::Result<()> {
    challenges(rt)?;
    challenge_refused(rt)?;
    verdicts(rt)?;
    verdicts_of_three(rt)?;
    sizes(rt)?;
    messages(rt)?;
    zero_rows(rt)?;
    before_zero_rows(rt)
}
