// Which rows may be taken, as callers say it.
ghost use Rattle.std.specs.Prelude.{◌≡◌, Bool, List};
ghost use Rattle.choice.specs.PrivateMarks.{not_zero};

use std::array;

// A mark for each row: a truth value, or a byte, where any but zero marks a candidate.
pub trait Candidates {
    ghost marked: { Self → List Bool };

    fn marks(self) -> [bool; 48]
        ensures { result ≡ marked self };
}

impl Candidates for [bool; 48] {
    ghost marked = { λ candidates. candidates };

    fn marks(self) -> [bool; 48] {
        self
    }
}

impl Candidates for [u8; 48] {
    ghost marked = { not_zero };

    fn marks(self) -> [bool; 48] {
        array::from_fn(|k| self[k] != 0)
    }
}
