// Prove: the response to a challenge.
#![tactic(auto)]

ghost use Rattle.std.specs.Prelude.{◌≡◌, false, not, ℕ, ◌+◌, ◌-◌, ◌<◌, ◌≤◌, length};
ghost use Rattle.lists.specs.Lists.{at, tab, any_below};
ghost use Rattle.answer.specs.Refusals.{Passed};
ghost use Rattle.sizes.specs.Lengths.{response_length, record_length, m_most, tags_most, record_most};
ghost use Rattle.sizes.specs.Lengths.{auxiliary_length};
ghost use Rattle.mask.specs.Masks.{mask_coefficient, mask_sum};
ghost use Rattle.message.specs.Challenge.{challenge_of, not_there};
ghost use Rattle.archive.specs.Layout.{sizes_of, id_of, filled_in};
ghost use Rattle.archive.specs.Prove.{prove_answer, response_for, named_byte, proved_for, prove_out};

use answer::Refusal;
use archive::{Records, bad_archive, marked, sizes_in};
use field::Tables;
use keystream::Key;
use mask::{MaskRows, Seed};
use message::ChallengeMessage;
use sizes::{record_length, record_start};

// Whether named place j is empty.
fn named_empty(records: Records<'_>, challenge: &ChallengeMessage<'_>, j: usize) -> bool
    requires { (not_there records.z challenge.now ≡ false) × (j < length challenge.now.places) }
    ensures { let c = challenge.now in
        let records = records.entry in
        result ≡ not (filled_in records.z records.bytes.now c.node (at c.places j)) }
{
    !marked(
        records.bytes,
        challenge.node() * records.z.places + challenge.place(j),
    )
}

// Whether a named place is empty.
fn any_named_empty(records: Records<'_>, challenge: &ChallengeMessage<'_>) -> bool
    requires { not_there records.z challenge.now ≡ false }
    ensures { let c = challenge.now in
        let records = records.entry in
        result ≡ any_below (length c.places) (λ j. not (filled_in records.z records.bytes.now c.node (at c.places j))) }
{
    (0..challenge.count()).any(|j| named_empty(records, challenge, j))
}

// The first refusal of Prove.
fn prove_check(
    archive: &[u8],
    mask_key: &[u8],
    auxiliary: &[u8],
    seed: &[u8],
    message: &[u8],
    response: &[u8],
) -> Result<(), Refusal>
    ensures { let archive = archive.entry.now in
        let mask_key = mask_key.now in
        let auxiliary = auxiliary.entry.now in
        let seed = seed.entry.now in
        let message = message.entry.now in
        let response = response.entry.now in
        result ≡ prove_answer archive mask_key auxiliary seed message response }
{
    if bad_archive(archive) {
        return Err(Refusal::BadArchive);
    }
    let challenge = ChallengeMessage::read(message)?;
    let z = sizes_in(archive);
    if (mask_key.len() != sizes::KEY_LENGTH)
        | (auxiliary.len() != sizes::auxiliary_length(z.n, z.tags))
        | (seed.len() != sizes::SEED_LENGTH)
        | (response.len() != sizes::response_length(z.n, z.tags))
    {
        return Err(Refusal::Length);
    }
    if challenge.not_there(z) {
        return Err(Refusal::NoSuchPlace);
    }
    let records = Records { z, bytes: archive };
    if any_named_empty(records, &challenge) {
        return Err(Refusal::PlaceEmpty);
    }
    Ok(())
}

// The records of the named places, blocks and tags, combined by the challenge.
fn named_record(
    tables: &Tables,
    records: Records<'_>,
    challenge: &ChallengeMessage<'_>,
) -> [u8; sizes::RECORD_MOST]
    requires { not_there records.z challenge.now ≡ false }
    ensures { let records = records.entry in
        ((e : ℕ) → e < record_length records.z → at result e ≡ named_byte records.z records.bytes.now challenge.now e) }
{
    let z = records.z;
    let start = record_start(z, challenge.node() * z.places);
    let len = record_length(z);
    let mut record = [0u8; sizes::RECORD_MOST];
    challenge.add_named(tables, &records.bytes[start..], &mut record[..len]);
    record
}

// The mask sums of a seed, one for each tag.
fn write_sums(rows: &MaskRows, seed: Seed, auxiliary: &[u8], sums: &mut [u8])
    requires { (length sums.old ≤ tags_most)
        × (length auxiliary.now ≡ auxiliary_length rows.now.n (length sums.old)) }
    ensures { let auxiliary = auxiliary.entry.now in
        let rows = rows.entry.now in
        sums.new ≡ tab (length sums.old) (mask_sum rows.n (mask_coefficient rows.key seed) auxiliary) }
{
    for (s, sum) in sums.iter_mut().enumerate() {
        *sum = rows.mask_sum(seed, auxiliary, s);
    }
}

// The response that a combined record makes, part by part.
fn write_parts(
    node: usize,
    rows: &MaskRows,
    m: usize,
    tags: usize,
    combined: &[u8],
    auxiliary: &[u8],
    seed: Seed,
    response: &mut [u8],
)
    requires { (node < 8)
        × (m ≤ m_most)
        × (tags ≤ tags_most)
        × (length combined.now ≡ record_most)
        × (length auxiliary.now ≡ auxiliary_length rows.now.n tags)
        × (length response.old ≡ response_length rows.now.n tags) }
    ensures { let auxiliary = auxiliary.entry.now in
        let combined = combined.entry.now in
        let rows = rows.entry.now in
        let tag : ℕ → ℕ = λ s. at combined (rows.n + m + s) in
        response.new ≡ response_for rows.n tags rows.id rows.key auxiliary seed node (at combined) tag }
{
    let n = rows.n;
    let sums_start = n + sizes::SUM_PAST_N;
    let clear_start = n + tags + sizes::CLEAR_PAST_SUMS;
    let tags_start = n + tags + sizes::TAG_PAST_SUMS;
    response[0] = message::head_byte(node);
    response[1..n - 1].copy_from_slice(&combined[..n - 2]);
    rows.add_mask(seed, &mut response[1..n - 1]);
    response[n - 1..sums_start].copy_from_slice(&seed);
    write_sums(
        rows,
        seed,
        auxiliary,
        &mut response[sums_start..clear_start],
    );
    response[clear_start..tags_start].copy_from_slice(&combined[n - 2..n]);
    response[tags_start..].copy_from_slice(&combined[n + m..n + m + tags]);
}

// The combined record of the named places under the mask of the seed.
fn write_response(
    archive: &[u8],
    mask_key: &[u8],
    auxiliary: &[u8],
    seed: &[u8],
    message: &[u8],
    response: &mut [u8],
)
    requires { Passed (prove_answer archive.now mask_key.now auxiliary.now seed.now message.now response.old) }
    ensures { let archive = archive.entry.now in
        let mask_key = mask_key.now in
        let auxiliary = auxiliary.entry.now in
        let seed = seed.entry.now in
        let message = message.entry.now in
        response.new
        ≡ proved_for (sizes_of archive) (id_of archive) archive mask_key auxiliary seed (challenge_of message) }
{
    let challenge = ChallengeMessage::read(message).unwrap();
    let tables = Tables::new();
    let z = sizes_in(archive);
    let records = Records { z, bytes: archive };
    let combined = named_record(&tables, records, &challenge);
    let node = challenge.node();
    let seed = Seed::try_from(seed).unwrap();
    let rows = MaskRows {
        key: Key::try_from(mask_key).unwrap(),
        id: archive::id_in(archive),
        n: z.n,
    };
    write_parts(
        node, &rows, z.m, z.tags, &combined, auxiliary, seed, response,
    );
}

// The response to a challenge, with the mask of a seed over its block.
pub fn prove(
    archive: &[u8],
    mask_key: &[u8],
    auxiliary: &[u8],
    seed: &[u8],
    message: &[u8],
    response: &mut [u8],
) -> Result<(), Refusal>
    ensures answer { let archive = archive.entry.now in
        let mask_key = mask_key.now in
        let auxiliary = auxiliary.entry.now in
        let seed = seed.entry.now in
        let message = message.entry.now in
        let response = response.entry.now in
        result ≡ prove_answer archive mask_key auxiliary seed message response }
    ensures output { let archive = archive.entry.now in
        let mask_key = mask_key.now in
        let auxiliary = auxiliary.entry.now in
        let seed = seed.entry.now in
        let message = message.entry.now in
        response.new ≡ prove_out archive mask_key auxiliary seed message response.old }
{
    prove_check(archive, mask_key, auxiliary, seed, message, response)?;
    write_response(archive, mask_key, auxiliary, seed, message, response);
    Ok(())
}
