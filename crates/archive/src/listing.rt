// Inventory: the filled places in shelf order.
ghost use Rattle.std.specs.Prelude.{◌≡◌, length};
ghost use Rattle.sizes.specs.Lengths.{place_count};
ghost use Rattle.lists.specs.Lists.{how_many};
ghost use Rattle.archive.specs.Layout.{mark_at};
ghost use Rattle.archive.specs.Inventory.{shelf, inventory_answer, inventory_out};

use crate::layout::{Records, bad_archive, marked, sizes_in};
use answer::Refusal;

// 8 times the node (the scheme: box) plus the place for each filled place, node by node and place by place, then zeros; their number.
fn list_filled(records: Records<'_>, list: &mut [u8]) -> usize
    requires { length list.old ≡ place_count records.z }
    ensures number { let records = records.entry in result ≡ how_many (place_count records.z) (mark_at records.bytes.now) }
    ensures output { let records = records.entry in list.new ≡ shelf records.z (mark_at records.bytes.now) }
{
    let z = records.z;
    let places = z.places;
    list.fill(0);
    // By index: the list moves on only at a filled place, and the count is asked for too.
    let mut count = 0;
    for k in 0..z.nodes * places {
        if marked(records.bytes, k) {
            list[count] = ((k / places * 8 + k % places) % 256) as u8;
            count += 1;
        }
    }
    count
}

// The filled places of an archive in shelf order, and their number.
pub fn inventory(archive: &[u8], list: &mut [u8]) -> Result<usize, Refusal>
    ensures answer { result ≡ inventory_answer archive.now list.old }
    ensures output { list.new ≡ inventory_out archive.now list.old }
{
    if bad_archive(archive) {
        return Err(Refusal::BadArchive);
    }
    let z = sizes_in(archive);
    if list.len() != z.nodes * z.places {
        return Err(Refusal::Length);
    }
    let records = Records { z, bytes: archive };
    Ok(list_filled(records, list))
}
