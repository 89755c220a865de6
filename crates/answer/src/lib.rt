// What an operation answers: a value, or the first refusal that applies.
#![tactic(auto)]

ghost use Rattle.std.specs.Prelude.{◌≡◌};
ghost use Rattle.answer.specs.Numbers.{refusal_number, answer_number};
ghost use Rattle.answer.specs.Refusals as Refusals;

// The refusals, each with its number. No refusal has the number 10.
#[derive(Clone, Copy, Debug, PartialEq, Eq)]
pub enum Refusal {
    // 1: a size outside its range.
    Size,
    // 2: a buffer of wrong length.
    Length,
    // 3: a bad archive.
    BadArchive,
    // 4: no such node (the scheme: box) or place.
    NoSuchPlace,
    // 5: a place that must be filled is empty.
    PlaceEmpty,
    // 6: a place that would be filled is filled.
    PlaceFilled,
    // 7: a tag key whose first n-2 key elements are zero.
    ZeroKeyVector,
    // 8: the filled rows do not determine the file.
    Unreadable,
    // 9: a malformed message, or fields out of rule.
    Malformed,
    // 11: a challenge whose combined row is zero.
    ProvesNothing,
    // 12: wanted rows that no thetas give.
    NoPlan,
}

impl From<Refusal> for u8 {
    ghost from_gives = { λ r n. n ≡ refusal_number r };

    fn from(refusal: Refusal) -> u8 {
        match refusal {
            Refusal::Size => 1,
            Refusal::Length => 2,
            Refusal::BadArchive => 3,
            Refusal::NoSuchPlace => 4,
            Refusal::PlaceEmpty => 5,
            Refusal::PlaceFilled => 6,
            Refusal::ZeroKeyVector => 7,
            Refusal::Unreadable => 8,
            Refusal::Malformed => 9,
            Refusal::ProvesNothing => 11,
            Refusal::NoPlan => 12,
        }
    }
}

// 0 for what is done, whatever its value, else the refusal's number.
pub fn number<T: Copy>(answer: Result<T, Refusal>) -> u8
    ensures { result ≡ answer_number answer }
{
    match answer {
        Ok(_) => 0,
        Err(refusal) => u8::from(refusal),
    }
}

// Whether x is below lo or above hi.
pub fn outside(lo: usize, hi: usize, x: usize) -> bool
    ensures { result ≡ Refusals.outside lo hi x }
{
    (x < lo) | (hi < x)
}
