// Unmask: the masked bytes of a response without their mask.
ghost use Rattle.std.specs.Prelude.{◌≡◌, ◌-◌, ◌≤◌, length};
ghost use Rattle.lists.specs.Lists.{tab};
ghost use Rattle.sizes.specs.Lengths.{sum_at};
ghost use Rattle.message.specs.Unmask.{unmask_answer, unmasked, unmask_out};

use answer::Refusal;
use keystream::Key;
use mask::{MaskRows, Seed};
use tag::Id;

// The first refusal of Unmask.
fn unmask_check(
    n: usize,
    tags: usize,
    id: &[u8],
    mask_key: &[u8],
    response: &[u8],
    out: &[u8],
) -> Result<(), Refusal>
    ensures { let id = id.entry.now in
        let mask_key = mask_key.now in
        let response = response.entry.now in
        let out = out.entry.now in
        result ≡ unmask_answer n tags id mask_key response out }
{
    if sizes::n_outside(n) | sizes::tags_outside(tags) {
        return Err(Refusal::Size);
    }
    if (id.len() != sizes::ID_LENGTH)
        | (mask_key.len() != sizes::KEY_LENGTH)
        | (response.len() != sizes::response_length(n, tags))
        | (out.len() != n - 2)
    {
        return Err(Refusal::Length);
    }
    let kind = bits::read_field(response, 0, 4);
    let node = bits::read_field(response, 4, 3);
    let spare = bits::read_field(response, 7, 1);
    if (kind != 2) | (5 < node) | (spare != 0) {
        return Err(Refusal::Malformed);
    }
    Ok(())
}

// The masked bytes, and then the mask of the response's seed taken off them.
fn unmask_into(rows: &MaskRows, response: &[u8], out: &mut [u8])
    requires { (sum_at rows.now.n 0 ≤ length response.now) × (length out.old ≡ rows.now.n - 2) }
    ensures { let response = response.entry.now in
        let rows = rows.entry.now in
        out.new ≡ tab (rows.n - 2) (unmasked rows.n rows.id rows.key response) }
{
    let n = rows.n;
    lists::copy(&response[1..n - 1], out);
    let seed = Seed::try_from(&response[n - 1..n + sizes::SUM_PAST_N]).unwrap();
    rows.add_mask(seed, out);
}

// The n - 2 bytes that a response hides.
pub fn unmask(
    n: usize,
    tags: usize,
    id: &[u8],
    mask_key: &[u8],
    response: &[u8],
    out: &mut [u8],
) -> Result<(), Refusal>
    ensures answer { let id = id.entry.now in
        let mask_key = mask_key.now in
        let response = response.entry.now in
        let out = out.entry.now in
        result ≡ unmask_answer n tags id mask_key response out }
    ensures output { let id = id.entry.now in
        let mask_key = mask_key.now in
        let response = response.entry.now in
        out.new ≡ unmask_out n tags id mask_key response out.old }
{
    unmask_check(n, tags, id, mask_key, response, out)?;
    let rows = MaskRows {
        key: Key::try_from(mask_key).unwrap(),
        id: Id::try_from(id).unwrap(),
        n,
    };
    unmask_into(&rows, response, out);
    Ok(())
}
