// The tables that products go through, filled from the constants.
ghost use Rattle.std.specs.Prelude.{◌≡◌, ◌<◌};
ghost use Rattle.field.specs.Field.{times, power};
ghost use Rattle.field.specs.PrivateTables.{Laid, FieldTables};

use super::constants::{LOGS, POWERS};
use super::factor;

// Where the logarithms begin in the tables.
const LOGS_START: usize = 510;

// The powers twice in a row, so that the sum of two logarithms is an index, then the logarithms.
#[derive(Clone, Copy)]
pub struct Tables {
    entries: [u8; 766],
    ghost filled: { FieldTables entries },
}

// The two constants laid out in one array.
fn laid(powers: [u8; 255], logs: [u8; 256]) -> [u8; 766]
    ensures { Laid powers logs result }
{
    let mut out = [0u8; 766];
    out[..255].copy_from_slice(&powers);
    out[255..LOGS_START].copy_from_slice(&powers);
    out[LOGS_START..].copy_from_slice(&logs);
    out
}

impl Tables {
    // The tables by value. A loop is lent a copy that was made once before it begins: a constant table is rebuilt on the stack at each use.
    pub fn new() -> Tables {
        Tables {
            entries: laid(POWERS, LOGS),
        }
    }

    // 03 to the k, for k up to the sum of two logarithms.
    pub(crate) fn exp(&self, k: usize) -> u8
        requires { k < 510 }
        ensures { result ≡ power 3 k }
    {
        self.entries[k]
    }

    // The logarithm of a where a is not zero; of 00 some exponent, so that it is an index too.
    pub fn log(&self, a: u8) -> usize
        ensures { (result < 255) × (0 < a → power 3 result ≡ a) }
    {
        usize::from(self.entries[usize::from(a) + LOGS_START])
    }

    // The product of a and b, with k the logarithm of a: for loops over b, where a stays.
    pub fn product_by_log(&self, a: u8, k: usize, b: u8) -> u8
        requires { (k < 255) × (0 < a → power 3 k ≡ a) }
        ensures { result ≡ times a b }
    {
        let f = factor(a, b);
        let p = usize::from(self.exp(k + self.log(b)));
        (p * f) as u8
    }

    // The product.
    pub fn product(&self, a: u8, b: u8) -> u8
        ensures { result ≡ times a b }
    {
        self.product_by_log(a, self.log(a), b)
    }
}
