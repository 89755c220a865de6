// Calls that write nothing: what they are lent keeps its bytes.
use crate::{Archive, Lent, answered, kept, unchanged};
use answer::Refusal;
use std::io;

// The number that a call on an archive answers.
pub fn answer_on<T: Copy, F: FnOnce(&mut [u8]) -> Result<T, Refusal>>(
    rt: &impl Print,
    s: &Archive,
    call: F,
) -> io::Result<u8>
    requires { F.IsAlwaysCallable call }
{
    let mut t = *s;
    let answer = call(t.as_mut_slice());
    unchanged(rt, s, &t)?;
    Ok(answer::number(answer))
}

// The number that a call with an output of `len` bytes answers.
pub fn answer_into<T: Copy, F: FnOnce(&mut [u8]) -> Result<T, Refusal>>(
    rt: &impl Print,
    len: usize,
    call: F,
) -> io::Result<u8>
    requires { F.IsAlwaysCallable call }
{
    let mut lent = Lent::filled(0xa5, len);
    let answer = call(lent.as_mut_slice());
    kept(rt, &lent)?;
    Ok(answer::number(answer))
}

// A call on an archive is refused with the number expected.
pub fn refused_on<T: Copy, F: FnOnce(&mut [u8]) -> Result<T, Refusal>>(
    rt: &impl Print,
    label: &str,
    expected: u64,
    s: &Archive,
    call: F,
) -> io::Result<()>
    requires { F.IsAlwaysCallable call }
{
    let mut t = *s;
    let answer = call(t.as_mut_slice());
    answered(rt, label, expected, answer)?;
    unchanged(rt, s, &t)
}

// A call with an output of `len` bytes, at most 64, is refused with the number expected.
pub fn refused_into<T: Copy, F: FnOnce(&mut [u8]) -> Result<T, Refusal>>(
    rt: &impl Print,
    label: &str,
    expected: u64,
    len: usize,
    call: F,
) -> io::Result<()>
    requires { F.IsAlwaysCallable call }
{
    let mut lent = Lent::filled(0xa5, len);
    let answer = call(lent.as_mut_slice());
    answered(rt, label, expected, answer)?;
    kept(rt, &lent)
}
