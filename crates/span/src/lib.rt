// The archive's operations for C and Rust: numbers and byte slices in, the answer's number out, any other value into lent memory
// (include/span_archive.h).
#![tactic(auto)]

ghost use Rattle.std.specs.Prelude.{◌≡◌, ◌<◌, length};
ghost use Rattle.answer.specs.Answer.{Outcome, Counted};
ghost use Rattle.answer.specs.Numbers.{answer_number, NumberedAnswer};
ghost use Rattle.field.specs.Field.{times, inverse_of};
ghost use Rattle.keystream.specs.Block.{block_answer, block_out};
ghost use Rattle.tag.specs.Vector.{vector_answer, vector_out};
ghost use Rattle.mask.specs.Setup.{setup_answer, setup_out};
ghost use Rattle.message.specs.Unmask.{unmask_answer, unmask_out};
ghost use Rattle.message.specs.Challenge.{challenge_for, challenge_answer, challenge_out};
ghost use Rattle.audit.specs.Verdict.{judgement_number, verdict_of};
ghost use Rattle.archive.specs.Open.{open_answer, open_out};
ghost use Rattle.archive.specs.Calls as Calls;
ghost use Rattle.archive.specs.Calls.{archive_answer, archive_after, scratch_after};
ghost use Rattle.archive.specs.Prove.{prove_answer, prove_out};
ghost use Rattle.answer.specs.Counted.{counted_value, CountedAnswer};
ghost use Rattle.archive.specs.Inventory.{inventory_answer, inventory_out};
ghost use Rattle.archive.specs.Read.{ReadAllows};
ghost use Rattle.archive.specs.Plan.{PlanAllows};
ghost use Rattle.archive.specs.Losses.{LossesAllows};
ghost use Rattle.archive.specs.Layout.{layout_of, sizes_of};
ghost use Rattle.archive.specs.Gather.{gather_answer, gather_after};
ghost use Rattle.archive.specs.Told.{sizes_answer, size_after, rows_answer, rows_out};
ghost use Rattle.sizes.specs.declared.Sizes.{Sizes};

use answer::Refusal;

#[unsafe(no_mangle)]
pub extern "C" fn span_multiply(a: u8, b: u8) -> u8
    ensures { result ≡ times a b }
{
    field::multiply(a, b)
}

#[unsafe(no_mangle)]
pub extern "C" fn span_inverse(a: u8) -> u8
    ensures { result ≡ inverse_of a }
{
    field::inverse(a)
}

#[unsafe(no_mangle)]
pub extern "C" fn span_block(key: &[u8], counter: u32, nonce: &[u8], out: &mut [u8]) -> u8
    ensures number { let key = key.entry.now in
        let nonce = nonce.entry.now in
        let out = out.entry.now in
        result ≡ answer_number (block_answer key nonce out) }
    ensures output { let key = key.entry.now in
        let nonce = nonce.entry.now in
        out.new ≡ block_out key counter nonce out.old }
{
    answer::number(keystream::block(key, counter, nonce, out))
}

#[unsafe(no_mangle)]
pub extern "C" fn span_vector(
    tag_key: &[u8],
    id: &[u8],
    n: usize,
    m: usize,
    s: usize,
    out: &mut [u8],
) -> u8
    ensures number { let tag_key = tag_key.now in
        let id = id.entry.now in
        let out = out.entry.now in
        result ≡ answer_number (vector_answer tag_key id n m s out) }
    ensures output { let tag_key = tag_key.now in
        let id = id.entry.now in
        out.new ≡ vector_out tag_key id n m s out.old }
{
    answer::number(tag::vector(tag_key, id, n, m, s, out))
}

#[unsafe(no_mangle)]
pub extern "C" fn span_setup(
    tag_key: &[u8],
    mask_key: &[u8],
    id: &[u8],
    n: usize,
    tags: usize,
    auxiliary: &mut [u8],
) -> u8
    ensures number { let tag_key = tag_key.now in
        let mask_key = mask_key.now in
        let id = id.entry.now in
        let auxiliary = auxiliary.entry.now in
        result ≡ answer_number (setup_answer tag_key mask_key id n tags auxiliary) }
    ensures output { let tag_key = tag_key.now in
        let mask_key = mask_key.now in
        let id = id.entry.now in
        auxiliary.new ≡ setup_out tag_key mask_key id n tags auxiliary.old }
{
    answer::number(mask::setup(tag_key, mask_key, id, n, tags, auxiliary))
}

#[unsafe(no_mangle)]
pub extern "C" fn span_unmask(
    n: usize,
    tags: usize,
    id: &[u8],
    mask_key: &[u8],
    response: &[u8],
    out: &mut [u8],
) -> u8
    ensures number { let id = id.entry.now in
        let mask_key = mask_key.now in
        let response = response.entry.now in
        let out = out.entry.now in
        result ≡ answer_number (unmask_answer n tags id mask_key response out) }
    ensures output { let id = id.entry.now in
        let mask_key = mask_key.now in
        let response = response.entry.now in
        out.new ≡ unmask_out n tags id mask_key response out.old }
{
    answer::number(message::unmask(n, tags, id, mask_key, response, out))
}

#[unsafe(no_mangle)]
pub extern "C" fn span_plan(
    archive: &[u8],
    helpers: &[u8],
    q: usize,
    gammas: &[u8],
    rows: &[u8],
    thetas: &mut [u8],
) -> u8
    ensures { let archive = archive.entry.now in
        let helpers = helpers.entry.now in
        let gammas = gammas.entry.now in
        let rows = rows.entry.now in
        let lent = thetas.old in
        let allows : Outcome → Type 0 = λ answer. PlanAllows archive helpers q gammas rows lent answer thetas.new in
        NumberedAnswer allows result }
{
    answer::number(planning::plan(archive, helpers, q, gammas, rows, thetas))
}

#[unsafe(no_mangle)]
pub extern "C" fn span_challenge(
    node: usize,
    places: &[u8],
    coefficients: &[u8],
    message: &mut [u8],
) -> u8
    ensures number { let places = places.entry.now in
        let coefficients = coefficients.entry.now in
        let message = message.entry.now in
        result ≡ answer_number (challenge_answer (challenge_for node places coefficients) message) }
    ensures output { let places = places.entry.now in
        let coefficients = coefficients.entry.now in
        message.new ≡ challenge_out (challenge_for node places coefficients) message.old }
{
    answer::number(message::challenge(node, places, coefficients, message))
}

#[unsafe(no_mangle)]
pub extern "C" fn span_verdict(
    tag_key: &[u8],
    id: &[u8],
    n: usize,
    m: usize,
    places: usize,
    nodes: usize,
    tags: usize,
    rows: &[u8],
    message: &[u8],
    response: &[u8],
) -> u8
    ensures { let tag_key = tag_key.now in
        let id = id.entry.now in
        let z : Sizes = record { n = n; m = m; places = places; nodes = nodes; tags = tags } in
        let rows = rows.entry.now in
        let message = message.entry.now in
        let response = response.entry.now in
        result ≡ judgement_number (verdict_of tag_key id z rows message response) }
{
    audit::number(audit::verdict(
        tag_key, id, n, m, places, nodes, tags, rows, message, response,
    ))
}

#[unsafe(no_mangle)]
pub extern "C" fn span_open(
    layout: usize,
    n: usize,
    m: usize,
    places: usize,
    nodes: usize,
    tags: usize,
    id: &[u8],
    archive: &mut [u8],
) -> u8
    ensures number { let z : Sizes = record { n = n; m = m; places = places; nodes = nodes; tags = tags } in
        let id = id.entry.now in
        let archive = archive.entry.now in
        result ≡ answer_number (open_answer layout z id archive) }
    ensures output { let z : Sizes = record { n = n; m = m; places = places; nodes = nodes; tags = tags } in
        let id = id.entry.now in
        archive.new ≡ open_out layout z id archive.old }
{
    answer::number(archive::open(layout, n, m, places, nodes, tags, id, archive))
}

#[unsafe(no_mangle)]
pub extern "C" fn span_encode(
    archive: &mut [u8],
    node: usize,
    place: usize,
    file: &[u8],
    padding: &[u8],
    tag_key: &[u8],
    row: &[u8],
) -> u8
    ensures number { let archive = archive.entry.now in
        let file = file.entry.now in
        let padding = padding.entry.now in
        let tag_key = tag_key.now in
        let row = row.entry.now in
        result ≡ answer_number (archive_answer archive (Calls.encode node place file padding tag_key row)) }
    ensures output { let file = file.entry.now in
        let padding = padding.entry.now in
        let tag_key = tag_key.now in
        let row = row.entry.now in
        archive.new ≡ archive_after archive.old (Calls.encode node place file padding tag_key row) }
{
    answer::number(coding::encode(archive, node, place, file, padding, tag_key, row))
}

#[unsafe(no_mangle)]
pub extern "C" fn span_lose(archive: &mut [u8], node: usize) -> u8
    ensures number { result ≡ answer_number (archive_answer archive.old (Calls.lose node)) }
    ensures output { archive.new ≡ archive_after archive.old (Calls.lose node) }
{
    answer::number(archive::lose(archive, node))
}

#[unsafe(no_mangle)]
pub extern "C" fn span_prove(
    archive: &[u8],
    mask_key: &[u8],
    auxiliary: &[u8],
    seed: &[u8],
    message: &[u8],
    response: &mut [u8],
) -> u8
    ensures number { let archive = archive.entry.now in
        let mask_key = mask_key.now in
        let auxiliary = auxiliary.entry.now in
        let seed = seed.entry.now in
        let message = message.entry.now in
        let response = response.entry.now in
        result ≡ answer_number (prove_answer archive mask_key auxiliary seed message response) }
    ensures output { let archive = archive.entry.now in
        let mask_key = mask_key.now in
        let auxiliary = auxiliary.entry.now in
        let seed = seed.entry.now in
        let message = message.entry.now in
        response.new ≡ prove_out archive mask_key auxiliary seed message response.old }
{
    answer::number(proving::prove(archive, mask_key, auxiliary, seed, message, response))
}

#[unsafe(no_mangle)]
pub extern "C" fn span_repair(
    archive: &mut [u8],
    target: usize,
    helpers: &[u8],
    q: usize,
    gammas: &[u8],
    thetas: &[u8],
    scratch: &mut [u8],
) -> u8
    ensures number { let archive = archive.entry.now in
        let helpers = helpers.entry.now in
        let gammas = gammas.entry.now in
        let thetas = thetas.entry.now in
        let scratch = scratch.entry.now in
        result ≡ answer_number (archive_answer archive (Calls.repair target helpers q gammas thetas (length scratch))) }
    ensures output { let helpers = helpers.entry.now in
        let gammas = gammas.entry.now in
        let thetas = thetas.entry.now in
        let scratch = scratch.entry.now in
        archive.new
        ≡ archive_after archive.old (Calls.repair target helpers q gammas thetas (length scratch)) }
    ensures blocks { let archive = archive.entry.now in
        let helpers = helpers.entry.now in
        let gammas = gammas.entry.now in
        let thetas = thetas.entry.now in
        scratch.new ≡ scratch_after archive target helpers q gammas thetas scratch.old }
{
    answer::number(coding::repair(archive, target, helpers, q, gammas, thetas, scratch))
}

#[unsafe(no_mangle)]
pub extern "C" fn span_gather(archive: &mut [u8], share: &[u8], node: usize) -> u8
    ensures number { result ≡ answer_number (gather_answer archive.old share.now node) }
    ensures output { archive.new ≡ gather_after archive.old share.now node }
{
    answer::number(gathering::gather(archive, share, node))
}

#[unsafe(no_mangle)]
pub extern "C" fn span_sizes(
    archive: &[u8],
    layout: &mut usize,
    n: &mut usize,
    m: &mut usize,
    places: &mut usize,
    nodes: &mut usize,
    tags: &mut usize,
) -> u8
    ensures number { result ≡ answer_number (sizes_answer archive.now) }
    ensures layout { let s = archive.now in layout.new ≡ size_after s (layout_of s) layout.old }
    ensures n { let s = archive.now in n.new ≡ size_after s (sizes_of s).n n.old }
    ensures m { let s = archive.now in m.new ≡ size_after s (sizes_of s).m m.old }
    ensures places { let s = archive.now in places.new ≡ size_after s (sizes_of s).places places.old }
    ensures nodes { let s = archive.now in nodes.new ≡ size_after s (sizes_of s).nodes nodes.old }
    ensures tags { let s = archive.now in tags.new ≡ size_after s (sizes_of s).tags tags.old }
{
    answer::number(gathering::sizes(archive, layout, n, m, places, nodes, tags))
}

#[unsafe(no_mangle)]
pub extern "C" fn span_rows(archive: &[u8], node: usize, rows: &mut [u8]) -> u8
    ensures number { result ≡ answer_number (rows_answer archive.now node rows.old) }
    ensures output { rows.new ≡ rows_out archive.now node rows.old }
{
    answer::number(gathering::rows(archive, node, rows))
}

// The number of an answer; its value, where it has one, is written.
fn tell(answer: Result<usize, Refusal>, value: &mut u8) -> u8
    requires { counted_value answer 0 < 256 }
    ensures number { result ≡ answer_number answer }
    ensures output { value.new ≡ counted_value answer value.old }
{
    if let Ok(k) = answer {
        *value = (k % 256) as u8;
    }
    answer::number(answer)
}

#[unsafe(no_mangle)]
pub extern "C" fn span_inventory(archive: &[u8], list: &mut [u8], count: &mut u8) -> u8
    ensures number { result ≡ answer_number (inventory_answer archive.now list.old) }
    ensures value { count.new ≡ counted_value (inventory_answer archive.now list.old) count.old }
    ensures output { list.new ≡ inventory_out archive.now list.old }
{
    tell(archive::inventory(archive, list), count)
}

#[unsafe(no_mangle)]
pub extern "C" fn span_read(archive: &[u8], file: &mut [u8], consulted: &mut u8) -> u8
    ensures { let archive = archive.entry.now in
        let allows : Counted → Type 0 = λ answer. ReadAllows archive file.old answer file.new in
        CountedAnswer allows result consulted.old consulted.new }
{
    tell(reading::read(archive, file), consulted)
}

#[unsafe(no_mangle)]
pub extern "C" fn span_losses(archive: &[u8], k: usize, sets: &mut [u8], count: &mut u8) -> u8
    ensures { let archive = archive.entry.now in
        let allows : Counted → Type 0 = λ answer. LossesAllows archive k sets.old answer sets.new in
        CountedAnswer allows result count.old count.new }
{
    tell(losses::losses(archive, k, sets), count)
}
