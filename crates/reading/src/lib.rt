// Read: the file, from the first places whose rows determine it.
#![tactic(auto)]

mod choosing;
mod solving;

ghost use Rattle.std.specs.Prelude.{◌≡◌, false, length};
ghost use Rattle.archive.specs.Layout.{sizes_of, bad_archive};
ghost use Rattle.sizes.specs.Lengths.{file_length};
ghost use Rattle.archive.specs.Read.{ReadAllows};

use answer::Refusal;
use archive::Records;
pub use choosing::{eliminate, marks, take};
use solving::solve;

// The file and the number of places consulted, where the rows determine it.
fn read_file(archive: &[u8], file: &mut [u8]) -> Result<usize, Refusal>
    requires { (bad_archive archive.now ≡ false) × (length file.old ≡ file_length (sizes_of archive.now)) }
    ensures { ReadAllows archive.now file.old result file.new }
{
    let z = archive::sizes_in(archive);
    let records = Records { z, bytes: archive };
    let chosen = take(records, marks(archive, z));
    let reduced = eliminate(records, chosen);
    if reduced.rank < z.m {
        return Err(Refusal::Unreadable);
    }
    solve(records, chosen.numbers, reduced.combinations, file);
    Ok(chosen.consulted)
}

// The file of an archive, and how many filled places were consulted.
pub fn read(archive: &[u8], file: &mut [u8]) -> Result<usize, Refusal>
    ensures { ReadAllows archive.now file.old result file.new }
{
    if archive::bad_archive(archive) {
        return Err(Refusal::BadArchive);
    }
    let z = archive::sizes_in(archive);
    if file.len() != z.m * (z.n - 2) {
        return Err(Refusal::Length);
    }
    read_file(archive, file)
}
