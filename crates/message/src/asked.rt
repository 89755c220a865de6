// A message that is a challenge, as Prove and Verdict read it.
ghost use Rattle.std.specs.Prelude.{◌≡◌, false, ℕ, ◌+◌, ◌-◌, ◌*◌, ◌<◌, ◌≤◌, length, leb};
ghost use Rattle.lists.specs.Lists.{at, any_below};
ghost use Rattle.bits.specs.Fields.{field_at};
ghost use Rattle.vector.specs.Vectors.{mixed, added};
ghost use Rattle.message.specs.Challenge.{Challenge, challenge_bits, challenge_of, malformed_challenge, challenge_read, not_there};

use super::asking::message_length;
use answer::Refusal;
use field::Tables;
use sizes::Sizes;
use std::marker::Model;

// The place of item j of a message.
pub fn place_in(message: &[u8], j: usize) -> usize
    requires { (j < 8) × (challenge_bits (j + 1) ≤ 8 * length message.now) }
    ensures { result ≡ field_at message.now (challenge_bits j) 3 }
{
    bits::read_field(message, 11 * (j + 1), 3)
}

// The coefficient of item j of a message.
pub fn coefficient_in(message: &[u8], j: usize) -> u8
    requires { (j < 8) × (challenge_bits (j + 1) ≤ 8 * length message.now) }
    ensures { result ≡ field_at message.now (challenge_bits j + 3) 8 }
{
    (bits::read_field(message, 11 * (j + 1) + 3, 8) % 256) as u8
}

// Whether a place in a message of so many items is not above the one before it: `any_fall` of fields of bits, which no slice lends.
fn any_fall_in(message: &[u8], count: usize) -> bool
    requires { (count ≤ 8) × (challenge_bits count ≤ 8 * length message.now) }
    ensures { let message = message.entry.now in
        result
        ≡ any_below (count - 1) (λ j. leb (field_at message (challenge_bits (j + 1)) 3) (field_at message (challenge_bits j) 3)) }
{
    (1..count).any(|j| place_in(message, j) <= place_in(message, j - 1))
}

// Whether a message is no challenge.
pub fn malformed(message: &[u8]) -> bool
    ensures { result ≡ malformed_challenge message.now }
{
    if message.len() < 2 {
        return true;
    }
    let count = bits::read_field(message, 7, 4);
    if answer::outside(1, 8, count) {
        return true;
    }
    let length = message_length(count);
    if message.len() != length {
        return true;
    }
    let used = 11 * (count + 1);
    (bits::read_field(message, 0, 4) != 1)
        | (5 < bits::read_field(message, 4, 3))
        | any_fall_in(message, count)
        | (bits::read_field(message, used, 8 * length - used) != 0)
}

// The bytes of a message that is a challenge. A clause sees the challenge.
#[derive(Drop)]
pub struct ChallengeMessage<'a> {
    bytes: &'a [u8],
}

impl<'a> Model for ChallengeMessage<'a> {
    ghost Value = { Challenge };

    ghost view = { λ m. challenge_of m.bytes.now };

    ghost invariant = { λ m. malformed_challenge m.bytes.now ≡ false };
}

impl<'a> ChallengeMessage<'a> {
    // The challenge that a message says, or the refusal of one that is malformed.
    pub fn read(message: &'a [u8]) -> Result<ChallengeMessage<'a>, Refusal>
        ensures { result ≡ challenge_read message.now }
    {
        if malformed(message) {
            return Err(Refusal::Malformed);
        }
        Ok(ChallengeMessage { bytes: message })
    }

    // The node that it names (the scheme: box).
    pub fn node(&self) -> usize
        ensures { (result ≡ self.now.node) × (result ≤ 5) }
    {
        bits::read_field(self.bytes, 4, 3)
    }

    // How many places it names.
    pub fn count(&self) -> usize
        ensures { (result ≡ length self.now.places) × (result ≤ 8) }
    {
        bits::read_field(self.bytes, 7, 4)
    }

    // The place of item j.
    pub fn place(&self, j: usize) -> usize
        requires { j < length self.now.places }
        ensures { result ≡ at self.now.places j }
    {
        place_in(self.bytes, j)
    }

    // The coefficient of item j.
    fn coefficient(&self, j: usize) -> u8
        requires { j < length self.now.places }
        ensures { result ≡ at self.now.coefficients j }
    {
        coefficient_in(self.bytes, j)
    }

    // Whether it names a node or a place that is not there.
    pub fn not_there(&self, z: Sizes) -> bool
        ensures { result ≡ not_there z self.now }
    {
        (z.nodes <= self.node()) | (0..self.count()).any(|j| z.places <= self.place(j))
    }

    // Adds the vectors of its places, each times its coefficient, to out. They stand one after another in u, each as long as out.
    pub fn add_named(&self, tables: &Tables, u: &[u8], out: &mut [u8])
        requires { let len = length out.old in
            (j : ℕ) → j < length self.now.places → at self.now.places j * len + len ≤ length u.now }
        ensures { let c = self.now in
            let u = u.entry.now in
            let len = length out.old in
            out.new
            ≡ added len 0 (mixed (length c.places) (at c.coefficients) (λ j e. at u (at c.places j * len + e))) out.old }
    {
        let len = out.len();
        // by index: the items are fields of bits
        for j in 0..self.count() {
            let first = self.place(j) * len;
            vector::add_multiple(tables, self.coefficient(j), &u[first..first + len], out);
        }
    }
}
