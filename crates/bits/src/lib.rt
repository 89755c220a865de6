// Bit-packed fields of a byte slice, most significant bit first: headers and messages are made of them.
#![tactic(auto)]

ghost use Rattle.std.specs.Prelude.{◌≡◌, ◌+◌, ◌-◌, ◌*◌, ◌/◌, ◌%◌, ◌^◌, ◌≤◌, ◌<◌, length};
ghost use Rattle.lists.specs.Lists.{bit};
ghost use Rattle.bits.specs.Fields.{bit_at, field_at, with_field, RoundTrip, Written};

// The byte that holds bit `from` + i. They stay two numbers, here and below, since their sum may be past the last usize.
fn byte_of(from: usize, i: usize) -> usize
    requires { i < 16 }
    ensures { result ≡ (from + i) / 8 }
{
    from / 8 + (from % 8 + i) / 8
}

// The bits after bit `from` + i in its byte.
fn bits_after(from: usize, i: usize) -> usize
    requires { i < 16 }
    ensures { result ≡ 7 - (from + i) % 8 }
{
    7 - (from % 8 + i) % 8
}

// What bit `from` + i counts in its byte.
fn weight(from: usize, i: usize) -> usize
    requires { i < 16 }
    ensures { result ≡ 2 ^ (7 - (from + i) % 8) }
{
    1 << bits_after(from, i)
}

// Bit `from` + i, 0 or 1.
fn bit_at(s: &[u8], from: usize, i: usize) -> usize
    requires { (i < 16) × (from + i < 8 * length s.now) }
    ensures { result ≡ bit (bit_at s.now (from + i)) }
{
    (usize::from(s[byte_of(from, i)]) >> bits_after(from, i)) % 2
}

// The byte b with v in the place of the old bit, which counts w.
fn replaced(b: usize, old: usize, v: usize, w: usize) -> u8
    requires { (old * w ≤ b) × (b - old * w + v * w < 256) }
    ensures { result ≡ b - old * w + v * w }
{
    (b - old * w + v * w) as u8
}

// Makes bit `from` + i v, which is 0 or 1.
fn set_bit(s: &mut [u8], from: usize, i: usize, v: usize)
    requires { (i < 16) × (from + i < 8 * length s.old) × (v < 2) }
    ensures { s.new ≡ with_field s.old (from + i) 1 v }
{
    let j = byte_of(from, i);
    let old = bit_at(s, from, i);
    s[j] = replaced(usize::from(s[j]), old, v, weight(from, i));
}

// The field of `width` bits at bit `from`. A width is a figure of the layout where it is called.
pub fn read_field(s: &[u8], from: usize, width: usize) -> usize
    requires { (width ≤ 16) × (from + width ≤ 8 * length s.now) }
    ensures { result ≡ field_at s.now from width }
{
    (0..width).fold(0, |value, i| value * 2 + bit_at(s, from, i))
}

// Writes the low `width` bits of value as the field at bit `from`; every other bit keeps its value. By index: i is a bit of both.
pub fn write_field(s: &mut [u8], from: usize, width: usize, value: usize)
    requires { (width ≤ 16) × (from + width ≤ 8 * length s.old) }
    ensures { s.new ≡ with_field s.old from width value }
{
    for i in 0..width {
        set_bit(s, from, i, (value >> (width - 1 - i)) % 2);
    }
}

// Carries the laws of packing: without their proof the crate is not proved.
pub fn round_trip()
    ensures { RoundTrip }
{}

// Carries the laws of writing.
pub fn writes_one_field()
    ensures { Written }
{}
