// The challenge message, as Challenge writes it.
ghost use Rattle.std.specs.Prelude.{◌≡◌, ◌+◌, ◌-◌, ◌≤◌, length, ltb, leb};
ghost use Rattle.lists.specs.Lists.{at, any_below};
ghost use Rattle.message.specs.Challenge.{challenge_for, challenge_length, challenge_bytes, out_of_rule, challenge_answer, challenge_out};

use answer::Refusal;

// The bytes of a challenge of so many items.
pub(crate) fn message_length(count: usize) -> usize
    requires { count ≤ 8 }
    ensures { result ≡ challenge_length count }
{
    (11 * (count + 1) + 7) / 8
}

// Whether a place is above 7.
fn any_high(places: &[u8]) -> bool
    ensures { result ≡ any_below (length places.now) (λ j. ltb 7 (at places.now j)) }
{
    places.iter().any(|place| 7 < *place)
}

// Whether a place is not above the one before it.
fn any_fall(places: &[u8]) -> bool
    ensures { let places = places.entry.now in
        result ≡ any_below (length places - 1) (λ j. leb (at places (j + 1)) (at places j)) }
{
    places.windows(2).any(|pair| pair[1] <= pair[0])
}

// The number of places is tested first: a list of more than a challenge has is not gone over, however long it is.
fn out_of_rule(node: usize, places: &[u8]) -> bool
    ensures { result ≡ out_of_rule node places.now }
{
    if answer::outside(1, 8, places.len()) {
        return true;
    }
    (5 < node) | any_high(places) | any_fall(places)
}

// The first refusal of Challenge.
fn challenge_check(
    node: usize,
    places: &[u8],
    coefficients: &[u8],
    message: &[u8],
) -> Result<(), Refusal>
    ensures { let places = places.entry.now in
        let coefficients = coefficients.entry.now in
        let message = message.entry.now in
        result ≡ challenge_answer (challenge_for node places coefficients) message }
{
    if coefficients.len() != places.len() {
        return Err(Refusal::Length);
    }
    if out_of_rule(node, places) {
        return Err(Refusal::Malformed);
    }
    if message.len() != message_length(places.len()) {
        return Err(Refusal::Length);
    }
    Ok(())
}

// Writes the whole message.
fn write_message(node: usize, places: &[u8], coefficients: &[u8], message: &mut [u8])
    requires { (length places.now ≤ 8)
        × (length coefficients.now ≡ length places.now)
        × (length message.old ≡ challenge_length (length places.now)) }
    ensures { let places = places.entry.now in
        let coefficients = coefficients.entry.now in
        message.new ≡ challenge_bytes (challenge_for node places coefficients) }
{
    message.fill(0);
    bits::write_field(message, 0, 4, 1);
    bits::write_field(message, 4, 3, node);
    bits::write_field(message, 7, 4, places.len());
    // the coefficient by j: over a `zip` the invariant speaks of the list of what was yielded, and is no plainer
    for (j, place) in places.iter().enumerate() {
        bits::write_field(message, 11 * (j + 1), 3, usize::from(*place));
        bits::write_field(message, 11 * (j + 1) + 3, 8, usize::from(coefficients[j]));
    }
}

// The challenge to a node (the scheme: box), with a coefficient for each place.
pub fn challenge(
    node: usize,
    places: &[u8],
    coefficients: &[u8],
    message: &mut [u8],
) -> Result<(), Refusal>
    ensures answer { let places = places.entry.now in
        let coefficients = coefficients.entry.now in
        let message = message.entry.now in
        result ≡ challenge_answer (challenge_for node places coefficients) message }
    ensures output { let places = places.entry.now in
        let coefficients = coefficients.entry.now in
        message.new ≡ challenge_out (challenge_for node places coefficients) message.old }
{
    challenge_check(node, places, coefficients, message)?;
    write_message(node, places, coefficients, message);
    Ok(())
}
