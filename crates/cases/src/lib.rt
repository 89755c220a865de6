// What the test programs share. One case a paragraph: its label, what is expected, what was got, and whether they are the same.
#![tactic(auto)]

use answer::Refusal;
use std::io;

mod archives;
mod buffers;
mod calls;

pub use archives::{Archive, LIVED, LIVED_OF_THREE};
pub use buffers::{Buffer, Lent, first, kept, unchanged};
pub use calls::{answer_into, answer_on, refused_into, refused_on};

// Of the lives in numbers: the id; the challenge to node 2, places 0 and 1, coefficients 07 and b5; the responses to it, of one tag and
// of three.
pub const ID: [u8; 8] = [1, 2, 3, 4, 5, 6, 7, 8];

pub const CHALLENGE: [u8; 5] = [0x14, 0x40, 0x1c, 0xda, 0x80];

pub const RESPONSE: [u8; 17] = *b"\x24\x2a\x00\x14\x28\x3c\x50\x64\x78\x8c\xa0\xb4\xc8\
    \x63\xc8\x55\x4d";

pub const RESPONSE_OF_THREE: [u8; 21] = *b"\x24\x2a\x00\x14\x28\x3c\x50\x64\x78\x8c\xa0\xb4\xc8\
    \x63\xce\x2b\xc8\x55\x4d\xfd\x76";

fn hex(rt: &impl Print, bytes: &[u8]) -> io::Result<()> {
    for byte in bytes {
        print!(rt; "{byte:02x}")?;
    }
    Ok(())
}

fn verdict(rt: &impl Print, same: bool) -> io::Result<()> {
    if same {
        println!(rt; "\n  same")
    } else {
        println!(rt; "\n  DIFFERENT")
    }
}

pub fn bytes(rt: &impl Print, label: &str, expected: &[u8], got: &[u8]) -> io::Result<()> {
    print!(rt; "{label}\n  expected ")?;
    hex(rt, expected)?;
    print!(rt; "\n  got      ")?;
    hex(rt, got)?;
    verdict(rt, expected == got)
}

pub fn number(rt: &impl Print, label: &str, expected: u64, got: u64) -> io::Result<()> {
    print!(rt; "{label}\n  expected {expected:02x}\n  got      {got:02x}")?;
    verdict(rt, expected == got)
}

// What a call answers: 0 for what is done, else the refusal's number.
pub fn answered<T: Copy>(
    rt: &impl Print,
    label: &str,
    expected: u64,
    answer: Result<T, Refusal>,
) -> io::Result<()> {
    number(rt, label, expected, u64::from(answer::number(answer)))
}

// The number that an answer counts; 255 where it is refused.
pub fn counted(
    rt: &impl Print,
    label: &str,
    expected: u64,
    answer: Result<usize, Refusal>,
) -> io::Result<()> {
    number(rt, label, expected, answer.unwrap_or(255) as u64)
}

// A key whose bytes count up from `first`.
pub fn counting_key(first: u8) -> [u8; 32] {
    let mut key = [0u8; 32];
    for (byte, b) in key.iter_mut().zip(first..=255) {
        *byte = b;
    }
    key
}

// The key 00 .. 00 01 1f: under the id, the first elements of its key vectors 0, 1 and 2 are 9d, 00 and b3.
pub fn key_of_zero() -> [u8; 32] {
    let mut key = [0u8; 32];
    key[30] = 0x01;
    key[31] = 0x1f;
    key
}
