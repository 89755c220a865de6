// Rows, as they are kept.
ghost use Rattle.std.specs.Prelude.{◌≡◌, ◌≤◌, length};
ghost use Rattle.lists.specs.Lists.{at};
ghost use Rattle.vector.specs.Vectors.{product, all_zero};
ghost use Rattle.linear.specs.PrivateRows.{kept};

use field::Tables;

// A row of m elements, kept as sixteen bytes, those past m zero.
#[derive(Clone, Copy)]
pub struct Row {
    pub bytes: [u8; 16],
}

// The row of these elements.
pub fn row_from(elements: &[u8]) -> Row
    requires { length elements.now ≤ 16 }
    ensures { result ≡ kept (length elements.now) (at elements.now) }
{
    let mut bytes = [0u8; 16];
    bytes[..elements.len()].copy_from_slice(elements);
    Row { bytes }
}

// Whether a row's m elements are zero.
pub fn all_zero(row: Row, m: usize) -> bool
    requires { m ≤ 16 }
    ensures { result ≡ all_zero m (at row.bytes) }
{
    row.bytes[..m].iter().all(|b| *b == 0)
}

// The product of a vector and a row's first elements.
pub fn dot(tables: &Tables, row: Row, vector: &[u8]) -> u8
    requires { length vector.now ≤ 16 }
    ensures { result ≡ product (length vector.now) (at row.bytes) (at vector.now) }
{
    vector::product_of(tables, &row.bytes[..vector.len()], vector)
}
