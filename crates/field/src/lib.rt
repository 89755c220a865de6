// The field GF(2^8) of FIPS 197: products by a table of powers and its logarithms.
#![tactic(auto)]

mod constants;
mod tables;

ghost use Rattle.std.specs.Prelude.{◌≡◌, ◌↔◌, ◌<◌};
ghost use Rattle.field.specs.Field.{times, inverse_of};
ghost use Rattle.field.specs.Laws.{FieldLaws};

pub use tables::Tables;

// 1 where neither operand is zero, else 0, by arithmetic alone: their ordinary product is divided by a number above it, and rounded up.
pub fn factor(a: u8, b: u8) -> usize
    ensures bit { result < 2 }
    ensures one { (result ≡ 1) ↔ ((0 < a) × (0 < b)) }
{
    (usize::from(a) * usize::from(b) + 65535) / 65536
}

// The product.
pub fn multiply(a: u8, b: u8) -> u8
    ensures { result ≡ times a b }
{
    let tables = Tables::new();
    tables.product(a, b)
}

// The inverse; of 00, which has no logarithm, 00.
pub fn inverse(a: u8) -> u8
    ensures { result ≡ inverse_of a }
{
    let tables = Tables::new();
    if a == 0 {
        0
    } else {
        tables.exp(255 - tables.log(a))
    }
}

// Carries the laws of the field: without their proof the crate is not proved.
pub fn field_laws()
    ensures { FieldLaws }
{}
