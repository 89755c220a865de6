// Header and fill marks: sizes, offsets, what is read of an archive and what makes one bad.
ghost use Rattle.std.specs.Prelude.{◌≡◌, false, not, ◌+◌, ◌*◌, ◌<◌, ◌≤◌, length, eqb, leb};
ghost use Rattle.lists.specs.Lists.{Bytes, pick, any_below};
ghost use Rattle.sizes.specs.Lengths.{marks_start, header_length, mark_count, archive_length};
ghost use Rattle.archive.specs.Layout.{layout_outside, tag_field, sizes_of, id_of, mark_at, filled_in, bad_archive};
ghost use Rattle.bits.specs.Fields.{field_at};
ghost use Rattle.sizes.specs.Sizes.{sizes_outside};

use sizes::{Sizes, archive_length};

// The number of tags that a header of this layout says: one in layout 1, which has no field for it.
fn tags_in(s: &[u8], layout: usize) -> usize
    requires { 4 ≤ length s.now }
    ensures { result ≡ pick (eqb layout 1) 1 (field_at s.now 27 4) }
{
    if layout == 1 {
        return 1;
    }
    bits::read_field(s, 27, 4)
}

// The sizes in a header.
pub fn sizes_in(s: &[u8]) -> Sizes
    requires { 4 ≤ length s.now }
    ensures { result ≡ sizes_of s.now }
{
    Sizes {
        n: bits::read_field(s, 4, 11),
        m: bits::read_field(s, 15, 5),
        places: bits::read_field(s, 20, 4),
        nodes: bits::read_field(s, 24, 3),
        tags: tags_in(s, bits::read_field(s, 0, 4)),
    }
}

// The id in a header.
pub fn id_in(s: &[u8]) -> [u8; 8]
    requires { marks_start ≤ length s.now }
    ensures { result ≡ id_of s.now }
{
    let mut id = [0u8; 8];
    id.copy_from_slice(&s[sizes::ID_START..sizes::MARKS_START]);
    id
}

// The bytes of an archive and its sizes, which are in their ranges. That the elements are bytes is true of every lent slice; a proof knows
// it where it sees the slice.
#[derive(Clone, Copy)]
pub struct Records<'a> {
    pub z: Sizes,
    pub bytes: &'a [u8],
    pub ghost ranges: { sizes_outside z ≡ false },
    pub ghost long: { length bytes.now ≡ archive_length z },
    pub ghost all_bytes: { Bytes bytes.now },
}

// Whether place number k is marked as filled.
pub fn marked(s: &[u8], k: usize) -> bool
    requires { (k < mark_count) × (header_length ≤ length s.now) }
    ensures { result ≡ mark_at s.now k }
{
    bits::read_field(s, sizes::FIRST_MARK + k, 1) == 1
}

// Whether a place of a node is filled; where `filled`, the mark that is looked for, is false, whether one is empty.
pub fn any_place(archive: &[u8], z: Sizes, node: usize, filled: bool) -> bool
    requires { (sizes_outside z ≡ false) × (node < z.nodes) × (header_length ≤ length archive.now) }
    ensures { let archive = archive.entry.now in
        result ≡ any_below z.places (λ k. pick filled (filled_in z archive node k) (not (filled_in z archive node k))) }
{
    (0..z.places).any(|k| marked(archive, node * z.places + k) == filled)
}

// Whether a mark is set that belongs to none of the first `count` places.
fn any_spare_mark(s: &[u8], count: usize) -> bool
    requires { 18 ≤ length s.now }
    ensures { result ≡ any_below mark_count (λ k. pick (leb count k) (mark_at s.now k) false) }
{
    (count..sizes::MARK_COUNT).any(|k| marked(s, k))
}

// Whether there is no such layout, or none with so many tags.
pub fn layout_outside(layout: usize, tags: usize) -> bool
    ensures { result ≡ layout_outside layout tags }
{
    if layout == 1 {
        return tags != 1;
    }
    layout != 2
}

// What a header of this layout says of the number of tags.
pub fn tag_field(layout: usize, tags: usize) -> usize
    ensures { result ≡ tag_field layout tags }
{
    if layout == 1 {
        return 0;
    }
    tags
}

// Whether s is a bad archive.
pub fn bad_archive(s: &[u8]) -> bool
    ensures { result ≡ bad_archive s.now }
{
    if s.len() < sizes::HEADER_LENGTH {
        return true;
    }
    let z = sizes_in(s);
    let layout = bits::read_field(s, 0, 4);
    let field = bits::read_field(s, 27, 4);
    let spare = bits::read_field(s, 31, 1);
    if layout_outside(layout, z.tags)
        | sizes::sizes_outside(z)
        | (field != tag_field(layout, z.tags))
        | (spare != 0)
    {
        return true;
    }
    if s.len() != archive_length(z) {
        return true;
    }
    any_spare_mark(s, z.nodes * z.places)
}
