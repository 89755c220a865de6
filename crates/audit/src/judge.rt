// Verdict: the auditor's judgement on a response.
ghost use Rattle.std.specs.Prelude.{◌≡◌, false, ◌*◌, ◌<◌, length};
ghost use Rattle.lists.specs.Lists.{at, any_below};
ghost use Rattle.answer.specs.Refusals.{Passed};
ghost use Rattle.sizes.specs.Sizes.{sizes_outside};
ghost use Rattle.linear.specs.PrivateRows.{kept};
ghost use Rattle.sizes.specs.Lengths.{response_length, vector_most};
ghost use Rattle.tag.specs.KeyVector.{key_vector};
ghost use Rattle.message.specs.Challenge.{challenge_of, malformed_challenge, not_there};
ghost use Rattle.audit.specs.Verdict.{judgement_number, verdict_for, named_row, fails, verdict_of};
ghost use Rattle.sizes.specs.declared.Sizes.{Sizes};

use crate::Judgement;
use answer::Refusal;
use field::Tables;
use keystream::Key;
use linear::Row;
use message::ChallengeMessage;
use sizes::Sizes;
use tag::Id;

// 0 for accepted, 255 for rejected, else the refusal's number.
pub fn number(answer: Result<Judgement, Refusal>) -> u8
    ensures { result ≡ judgement_number answer }
{
    match answer {
        Ok(Judgement::Accepted) => 0,
        Ok(Judgement::Rejected) => 255,
        Err(refusal) => u8::from(refusal),
    }
}

// The first refusal of Verdict before 11.
fn verdict_check(
    tag_key: &[u8],
    id: &[u8],
    z: Sizes,
    rows: &[u8],
    message: &[u8],
    response: &[u8],
) -> Result<(), Refusal>
    ensures { let tag_key = tag_key.now in
        let id = id.entry.now in
        let rows = rows.entry.now in
        let message = message.entry.now in
        let response = response.entry.now in
        result ≡ verdict_for z tag_key id rows (challenge_of message) (malformed_challenge message) response }
{
    if sizes::sizes_outside(z) {
        return Err(Refusal::Size);
    }
    let challenge = ChallengeMessage::read(message)?;
    if (tag_key.len() != sizes::KEY_LENGTH)
        | (id.len() != sizes::ID_LENGTH)
        | (rows.len() != z.places * z.m)
        | (response.len() != sizes::response_length(z.n, z.tags))
    {
        return Err(Refusal::Length);
    }
    if challenge.not_there(z) {
        return Err(Refusal::NoSuchPlace);
    }
    if response[0] != message::head_byte(challenge.node()) {
        return Err(Refusal::Malformed);
    }
    Ok(())
}

// The rows of the named places, combined by the challenge.
fn named_row(tables: &Tables, z: Sizes, rows: &[u8], challenge: &ChallengeMessage<'_>) -> Row
    requires { (sizes_outside z ≡ false)
        × (not_there z challenge.now ≡ false)
        × (length rows.now ≡ z.places * z.m) }
    ensures { result ≡ kept z.m (named_row z rows.now challenge.now) }
{
    let mut bytes = [0u8; 16];
    challenge.add_named(tables, rows, &mut bytes[..z.m]);
    Row { bytes }
}

// A response as long as the sizes make it, and the row that its challenge names.
#[derive(Clone, Copy)]
struct Response<'a> {
    z: Sizes,
    row: Row,
    bytes: &'a [u8],
    ghost ranges: { sizes_outside z ≡ false },
    ghost long: { length bytes.now ≡ response_length z.n z.tags },
}

impl<'a> Response<'a> {
    // Whether the data elements and the row, times the elements of a vector, do not give tag s plus mask sum s.
    fn fails_at(&self, tables: &Tables, vector: &[u8], s: usize) -> bool
        requires { (s < self.now.z.tags) × (length vector.now ≡ vector_most) }
        ensures { let response = self.now in
            result ≡ fails response.z (λ s. at vector.now) (at response.row.bytes) response.bytes.now s }
    {
        let n = self.z.n;
        let sums_end = n + self.z.tags;
        let bytes = self.bytes;
        let masked = vector::product_of(tables, &bytes[1..n - 1], &vector[..n - 2]);
        let clear = vector::product_of(
            tables,
            &bytes[sums_end + sizes::CLEAR_PAST_SUMS..sums_end + sizes::TAG_PAST_SUMS],
            &vector[n - 2..n],
        );
        let tail = linear::dot(tables, self.row, &vector[n..n + self.z.m]);
        masked ^ clear ^ tail
            != bytes[sums_end + sizes::TAG_PAST_SUMS + s] ^ bytes[n + sizes::SUM_PAST_N + s]
    }

    // Whether that is so for the key vector of tag s.
    fn tag_fails(&self, tables: &Tables, tag_key: Key, id: Id, s: usize) -> bool
        requires { s < self.now.z.tags }
        ensures { let response = self.now in
            result ≡ fails response.z (key_vector tag_key id) (at response.row.bytes) response.bytes.now s }
    {
        let blocks = (self.z.n + self.z.m) / sizes::STREAM_BLOCK_LENGTH + 1;
        let mut vector = [0u8; sizes::VECTOR_MOST];
        let size = blocks * sizes::STREAM_BLOCK_LENGTH;
        tag::key_vector_into(tag_key, id, s, &mut vector[..size]);
        self.fails_at(tables, &vector, s)
    }

    // Whether that is so for one of the tags.
    fn any_fails(&self, tables: &Tables, tag_key: Key, id: Id) -> bool
        ensures { let response = self.now in
            result
            ≡ any_below response.z.tags (fails response.z (key_vector tag_key id) (at response.row.bytes) response.bytes.now) }
    {
        (0..self.z.tags).any(|s| self.tag_fails(tables, tag_key, id, s))
    }
}

// The judgement where nothing before 11 is refused.
fn judged(
    tag_key: &[u8],
    id: &[u8],
    z: Sizes,
    rows: &[u8],
    message: &[u8],
    response: &[u8],
) -> Result<Judgement, Refusal>
    requires { let message = message.now in
        Passed (verdict_for z tag_key.now id.now rows.now (challenge_of message) (malformed_challenge message) response.now) }
    ensures { let tag_key = tag_key.now in
        let id = id.entry.now in
        let rows = rows.entry.now in
        let message = message.entry.now in
        let response = response.entry.now in
        result ≡ verdict_of tag_key id z rows message response }
{
    let tag_key = Key::try_from(tag_key).unwrap();
    let id = Id::try_from(id).unwrap();
    let challenge = ChallengeMessage::read(message).unwrap();
    let tables = Tables::new();
    let row = named_row(&tables, z, rows, &challenge);
    if linear::all_zero(row, z.m) {
        return Err(Refusal::ProvesNothing);
    }
    let response = Response {
        z,
        row,
        bytes: response,
    };
    if response.any_fails(&tables, tag_key, id) {
        Ok(Judgement::Rejected)
    } else {
        Ok(Judgement::Accepted)
    }
}

// Accepts or rejects a response to a challenge, by the rows that the owner has for the challenged node.
pub fn verdict(
    tag_key: &[u8],
    id: &[u8],
    n: usize,
    m: usize,
    places: usize,
    nodes: usize,
    tags: usize,
    rows: &[u8],
    message: &[u8],
    response: &[u8],
) -> Result<Judgement, Refusal>
    ensures { let tag_key = tag_key.now in
        let id = id.entry.now in
        let z : Sizes = record { n = n; m = m; places = places; nodes = nodes; tags = tags } in
        let rows = rows.entry.now in
        let message = message.entry.now in
        let response = response.entry.now in
        result ≡ verdict_of tag_key id z rows message response }
{
    let z = Sizes {
        n,
        m,
        places,
        nodes,
        tags,
    };
    verdict_check(tag_key, id, z, rows, message, response)?;
    judged(tag_key, id, z, rows, message, response)
}
