// Open: a new archive.
ghost use Rattle.std.specs.Prelude.{◌≡◌, ◌≤◌, length};
ghost use Rattle.sizes.specs.Lengths.{archive_length, header_length, id_length};
ghost use Rattle.bits.specs.Fields.{bits_of, packed};
ghost use Rattle.archive.specs.Layout.{size_fields};
ghost use Rattle.archive.specs.Open.{opened, open_answer, open_out};
ghost use Rattle.sizes.specs.declared.Sizes.{Sizes};

use crate::layout::{layout_outside, tag_field};
use answer::Refusal;
use sizes::{Sizes, archive_length};

// The first refusal of Open.
fn open_check(layout: usize, z: Sizes, id: &[u8], archive: &[u8]) -> Result<(), Refusal>
    ensures { result ≡ open_answer layout z id.now archive.now }
{
    if layout_outside(layout, z.tags) | sizes::sizes_outside(z) {
        return Err(Refusal::Size);
    }
    if (id.len() != sizes::ID_LENGTH) | (archive.len() != archive_length(z)) {
        return Err(Refusal::Length);
    }
    Ok(())
}

// The packed sizes, and zeros behind them.
fn write_sizes(layout: usize, z: Sizes, archive: &mut [u8])
    requires { header_length ≤ length archive.old }
    ensures { archive.new ≡ packed (length archive.old) (bits_of (size_fields layout z)) }
{
    archive.fill(0);
    bits::write_field(archive, 0, 4, layout);
    bits::write_field(archive, 4, 11, z.n);
    bits::write_field(archive, 15, 5, z.m);
    bits::write_field(archive, 20, 4, z.places);
    bits::write_field(archive, 24, 3, z.nodes);
    bits::write_field(archive, 27, 4, tag_field(layout, z.tags));
}

// The header of this layout, these sizes and this id, no marks, and zero records.
fn write_new(layout: usize, z: Sizes, id: &[u8], archive: &mut [u8])
    requires { (length id.now ≡ id_length) × (length archive.old ≡ archive_length z) }
    ensures { archive.new ≡ opened layout z id.now }
{
    write_sizes(layout, z, archive);
    archive[sizes::ID_START..sizes::MARKS_START].copy_from_slice(id);
}

// A new archive of a layout, n, m, places a node, nodes and tags (the scheme: M places a box, N boxes, L).
pub fn open(
    layout: usize,
    n: usize,
    m: usize,
    places: usize,
    nodes: usize,
    tags: usize,
    id: &[u8],
    archive: &mut [u8],
) -> Result<(), Refusal>
    ensures answer { let z : Sizes = record { n = n; m = m; places = places; nodes = nodes; tags = tags } in
        let id = id.entry.now in
        let archive = archive.entry.now in
        result ≡ open_answer layout z id archive }
    ensures output { let z : Sizes = record { n = n; m = m; places = places; nodes = nodes; tags = tags } in
        let id = id.entry.now in
        archive.new ≡ open_out layout z id archive.old }
{
    let z = Sizes {
        n,
        m,
        places,
        nodes,
        tags,
    };
    open_check(layout, z, id, archive)?;
    write_new(layout, z, id, archive);
    Ok(())
}
