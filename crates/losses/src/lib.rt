// Losses: which sets of k nodes (the scheme: boxes) would take the file with them.
#![tactic(auto)]

mod sets;

ghost use Rattle.std.specs.Prelude.{◌≡◌, false, ℕ, ◌/◌, ◌<◌, ◌≤◌, length};
ghost use Rattle.lists.specs.Lists.{pick};
ghost use Rattle.sizes.specs.Sizes.{sizes_outside};
ghost use Rattle.sizes.specs.Lengths.{place_count};
ghost use Rattle.choice.specs.PrivateChoice.{offered};
ghost use Rattle.archive.specs.Layout.{mark_at};
ghost use Rattle.archive.specs.Losses.{in_set, SetOf, Hurts, list_length, Losses, LossesAllows};
ghost use Rattle.losses.specs.PrivateSets.{Decides};

use answer::Refusal;
use archive::Records;
use sets::{SETS, in_set, is_sized, set_at};
use sizes::Sizes;

// The length of a list of sets: no k and no number of nodes has more.
const LIST_LENGTH: usize = 20;

// The marks of the places that remain when the nodes of a set are lost. By index, for the archive's places alone: made whole, as an array of 48,
// the marks took up to half as long again where an archive has few.
fn without(filled: [bool; 48], z: Sizes, set: usize) -> [bool; 48]
    requires { sizes_outside z ≡ false }
    ensures { (k : ℕ) → k < place_count z → offered result k ≡ pick (in_set set (k / z.places)) false (offered filled k) }
{
    let mut left = filled;
    for k in 0..z.nodes * z.places {
        if in_set(set, k / z.places) {
            left[k] = false;
        }
    }
    left
}

// Whether the file cannot be read without the nodes of a set. The rank is the number of rows taken; elimination also has, where that is too
// few, the vector that they leave open.
fn hurts(records: Records<'_>, filled: [bool; 48], set: usize) -> bool
    requires { (k : ℕ) → k < place_count records.z → offered filled k ≡ mark_at records.bytes.now k }
    ensures { let records = records.entry in Decides result (Hurts records.z records.bytes.now set) }
{
    let chosen = reading::take(records, without(filled, records.z, set));
    reading::eliminate(records, chosen).rank < records.z.m
}

// Whether a set is listed: it has k nodes, and hurts.
fn listed(records: Records<'_>, filled: [bool; 48], k: usize, set: usize) -> bool
    requires { (k : ℕ) → k < place_count records.z → offered filled k ≡ mark_at records.bytes.now k }
    ensures { let records = records.entry in
        Decides result (SetOf records.z k set × Hurts records.z records.bytes.now set) }
{
    if is_sized(records.z.nodes, k, set) {
        return hurts(records, filled, set);
    }
    false
}

// The list, of all sets in a row, and its number.
fn list_losses(records: Records<'_>, k: usize, sets: &mut [u8]) -> usize
    requires { (k ≤ records.z.nodes) × (length sets.old ≡ list_length) }
    ensures { let records = records.entry in Losses records.z records.bytes.now k result sets.new }
{
    let filled = reading::marks(records.bytes, records.z);
    sets.fill(0);
    let mut count = 0;
    // by number: a set is made of it, and the list moves on only at one that hurts
    for x in 0..SETS {
        let set = set_at(x);
        if listed(records, filled, k, set) {
            sets[count] = (set % 256) as u8;
            count += 1;
        }
    }
    count
}

// The sets of k nodes whose loss would leave the file unreadable, in lexicographic order, and their number.
pub fn losses(archive: &[u8], k: usize, sets: &mut [u8]) -> Result<usize, Refusal>
    ensures { LossesAllows archive.now k sets.old result sets.new }
{
    if archive::bad_archive(archive) {
        return Err(Refusal::BadArchive);
    }
    let z = archive::sizes_in(archive);
    if k > z.nodes {
        return Err(Refusal::Size);
    }
    if sets.len() != LIST_LENGTH {
        return Err(Refusal::Length);
    }
    let records = Records { z, bytes: archive };
    Ok(list_losses(records, k, sets))
}
