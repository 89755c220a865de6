// Writing fill marks.
ghost use Rattle.std.specs.Prelude.{◌≡◌, ◌+◌, ◌<◌, ◌≤◌, length};
ghost use Rattle.lists.specs.Lists.{at, over};
ghost use Rattle.sizes.specs.Lengths.{header_length, mark_count, marks_length};
ghost use Rattle.bits.specs.Fields.{packed};
ghost use Rattle.archive.specs.Layout.{mark_at, with_marks};

use crate::layout::marked;
use std::array;

// The mark of place number i, where those of the `count` places from k on are v.
fn mark_with(s: &[u8], k: usize, count: usize, v: bool, i: usize) -> bool
    requires { (k + count ≤ mark_count) × (i < mark_count) × (header_length ≤ length s.now) }
    ensures { result ≡ over k count (λ j. v) (mark_at s.now) i }
{
    if (k..k + count).contains(&i) {
        v
    } else {
        marked(s, i)
    }
}

// Byte j of the marks, where those of the `count` places from k on are v.
fn mark_byte(s: &[u8], k: usize, count: usize, v: bool, j: usize) -> u8
    requires { (k + count ≤ mark_count) × (j < marks_length) × (header_length ≤ length s.now) }
    ensures { result ≡ at (packed 6 (over k count (λ i. v) (mark_at s.now))) j }
{
    (0..8).fold(
        0,
        |byte, i| byte * 2 + u8::from(mark_with(s, k, count, v, 8 * j + i)),
    )
}

// Makes the marks of the `count` places from number k on v. By number: a mark is a bit, and no slice lends a few of them.
pub fn set_marks(s: &mut [u8], k: usize, count: usize, v: bool)
    requires { (k + count ≤ mark_count) × (header_length ≤ length s.old) }
    ensures { s.new ≡ with_marks (over k count (λ i. v) (mark_at s.old)) s.old }
{
    let marks: [u8; 6] = array::from_fn(|j| mark_byte(s, k, count, v, j));
    s[sizes::MARKS_START..sizes::HEADER_LENGTH].copy_from_slice(&marks);
}
