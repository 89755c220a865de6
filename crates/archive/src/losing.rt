// Lose: a node's places become empty.
ghost use Rattle.std.specs.Prelude.{◌≡◌};
ghost use Rattle.answer.specs.Refusals.{Passed};
ghost use Rattle.archive.specs.Layout.{sizes_of, id_of};
ghost use Rattle.archive.specs.Calls as Calls;
ghost use Rattle.archive.specs.Calls.{archive_answer, effect_for, archive_after};

use crate::layout::{bad_archive, sizes_in};
use crate::marks::set_marks;
use answer::Refusal;
use sizes::{record_length, record_start};

// The first refusal of Lose.
fn lose_check(archive: &[u8], node: usize) -> Result<(), Refusal>
    ensures { result ≡ archive_answer archive.now (Calls.lose node) }
{
    if bad_archive(archive) {
        return Err(Refusal::BadArchive);
    }
    let z = sizes_in(archive);
    if z.nodes <= node {
        return Err(Refusal::NoSuchPlace);
    }
    Ok(())
}

// No marks and zero records for the node's places.
fn empty_node(archive: &mut [u8], node: usize)
    requires { Passed (archive_answer archive.old (Calls.lose node)) }
    ensures { archive.new
        ≡ effect_for (sizes_of archive.old) (id_of archive.old) archive.old (Calls.lose node) }
{
    let z = sizes_in(archive);
    let k = node * z.places;
    set_marks(archive, k, z.places, false);
    let start = record_start(z, k);
    archive[start..start + z.places * record_length(z)].fill(0);
}

// Empties a node (the scheme: box).
pub fn lose(archive: &mut [u8], node: usize) -> Result<(), Refusal>
    ensures answer { result ≡ archive_answer archive.old (Calls.lose node) }
    ensures output { archive.new ≡ archive_after archive.old (Calls.lose node) }
{
    lose_check(archive, node)?;
    empty_node(archive, node);
    Ok(())
}
