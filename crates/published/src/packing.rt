// Bit-packed fields: the worked header and challenge, written and read back field by field.
ghost use Rattle.std.specs.Prelude.{◌+◌, ◌*◌, ◌≤◌, length};

use std::io;

fn read(
    rt: &impl Print,
    label: &str,
    expected: u64,
    s: &[u8],
    from: usize,
    width: usize,
) -> io::Result<()>
    requires { (width ≤ 16) × (from + width ≤ 8 * length s.now) }
{
    cases::number(rt, label, expected, bits::read_field(s, from, width) as u64)
}

// n=3, m=2, M=1, N=3 under layout 1, into bytes that are all ones.
fn header(rt: &impl Print) -> io::Result<()> {
    let mut s = [0xffu8; 4];
    bits::write_field(&mut s, 0, 4, 1);
    bits::write_field(&mut s, 4, 11, 3);
    bits::write_field(&mut s, 15, 5, 2);
    bits::write_field(&mut s, 20, 4, 1);
    bits::write_field(&mut s, 24, 3, 3);
    bits::write_field(&mut s, 27, 5, 0);
    cases::bytes(
        rt,
        "Header of n=3, m=2, M=1, N=3",
        &[0x10, 0x06, 0x21, 0x60],
        &s,
    )?;
    read(rt, "Header, layout", 1, &s, 0, 4)?;
    read(rt, "Header, n", 3, &s, 4, 11)?;
    read(rt, "Header, m", 2, &s, 15, 5)?;
    read(rt, "Header, M", 1, &s, 20, 4)?;
    read(rt, "Header, N", 3, &s, 24, 3)?;
    read(rt, "Header, spare bits", 0, &s, 27, 5)
}

// Kind 1, node 2, one item: place 0, coefficient 01.
fn challenge(rt: &impl Print) -> io::Result<()> {
    let mut s = [0u8; 3];
    bits::write_field(&mut s, 0, 4, 1);
    bits::write_field(&mut s, 4, 3, 2);
    bits::write_field(&mut s, 7, 4, 1);
    bits::write_field(&mut s, 11, 3, 0);
    bits::write_field(&mut s, 14, 8, 1);
    cases::bytes(
        rt,
        "Challenge to node 2, place 0, coefficient 01",
        &[0x14, 0x20, 0x04],
        &s,
    )?;
    read(rt, "Challenge, node", 2, &s, 4, 3)?;
    read(rt, "Challenge, coefficient", 1, &s, 14, 8)
}

pub fn run(rt: &impl Print) -> io::Result<()> {
    header(rt)?;
    challenge(rt)
}
