// Gather: the marks and records of one node of a share go into an archive.
ghost use Rattle.std.specs.Prelude.{◌≡◌, ◌+◌, ◌≤◌, length};
ghost use Rattle.lists.specs.Lists.{over};
ghost use Rattle.answer.specs.Refusals.{Passed};
ghost use Rattle.sizes.specs.Lengths.{marks_start, header_length, mark_count};
ghost use Rattle.archive.specs.Layout.{sizes_of, mark_at, with_marks};
ghost use Rattle.archive.specs.Gather.{other_archive, gather_answer, gathered, gather_after};

use answer::Refusal;
use archive::{bad_archive, sizes_in};

// Whether a byte ahead of the marks differs: layout, sizes, number of tags or id.
fn other_archive(archive: &[u8], share: &[u8]) -> bool
    requires { (marks_start ≤ length archive.now) × (marks_start ≤ length share.now) }
    ensures { result ≡ other_archive archive.now share.now }
{
    archive[..sizes::MARKS_START] != share[..sizes::MARKS_START]
}

// The first refusal of Gather.
fn gather_check(archive: &[u8], share: &[u8], node: usize) -> Result<(), Refusal>
    ensures { result ≡ gather_answer archive.now share.now node }
{
    if bad_archive(archive) {
        return Err(Refusal::BadArchive);
    }
    if bad_archive(share) {
        return Err(Refusal::BadArchive);
    }
    if other_archive(archive, share) {
        return Err(Refusal::BadArchive);
    }
    let z = sizes_in(archive);
    if z.nodes <= node {
        return Err(Refusal::NoSuchPlace);
    }
    if archive::any_place(archive, z, node, true) {
        return Err(Refusal::PlaceFilled);
    }
    Ok(())
}

// The marks of the `count` places from number k on become the share's.
fn copy_marks(archive: &mut [u8], share: &[u8], k: usize, count: usize)
    requires { (k + count ≤ mark_count) × (header_length ≤ length archive.old) × (header_length ≤ length share.now) }
    ensures { let share = share.entry.now in
        archive.new
        ≡ with_marks (over k count (λ j. mark_at share (k + j)) (mark_at archive.old)) archive.old }
{
    for place in k..k + count {
        archive::set_marks(archive, place, 1, archive::marked(share, place));
    }
}

// The node's marks and records become the share's.
fn copy_node(archive: &mut [u8], share: &[u8], node: usize)
    requires { Passed (gather_answer archive.old share.now node) }
    ensures { archive.new ≡ gathered (sizes_of archive.old) archive.old share.now node }
{
    let z = sizes_in(archive);
    let k = node * z.places;
    copy_marks(archive, share, k, z.places);
    let start = sizes::record_start(z, k);
    let len = z.places * sizes::record_length(z);
    lists::copy(&share[start..start + len], &mut archive[start..start + len]);
}

// Puts a node of a share into an archive where the node is empty.
pub fn gather(archive: &mut [u8], share: &[u8], node: usize) -> Result<(), Refusal>
    ensures answer { result ≡ gather_answer archive.old share.now node }
    ensures output { archive.new ≡ gather_after archive.old share.now node }
{
    gather_check(archive, share, node)?;
    copy_node(archive, share, node);
    Ok(())
}
