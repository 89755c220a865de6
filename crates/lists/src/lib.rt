// Lists by index: definitions and laws that every layer above cites, and one function on bytes; whatever else is done to bytes is the library's.
#![tactic(auto)]

ghost use Rattle.std.specs.Prelude.{◌≡◌, length};

// Copies a slice to one as long. It is the library's `copy_from_slice` byte by byte, for parts of two buffers that C lends: there the compiler
// cannot know that the two lie apart, and makes of the library's a call of `memmove`, which the archive for C does not ask for.
pub fn copy(from: &[u8], to: &mut [u8])
    requires { length from.now ≡ length to.old }
    ensures { to.new ≡ from.now }
{
    for (i, byte) in to.iter_mut().enumerate() {
        *byte = from[i];
    }
}
