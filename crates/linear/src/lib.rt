// Rows and elimination over GF(2^8).
#![tactic(auto)]

mod rows;

ghost use Rattle.std.specs.Prelude.{◌≡◌, ℕ, ◌<◌, ◌≤◌};
ghost use Rattle.lists.specs.Lists.{at};
ghost use Rattle.field.specs.Field.{plus, times};
ghost use Rattle.linear.specs.PrivateElimination.{cells, Reduces, LastIsCombined};
ghost use Rattle.linear.specs.PrivateSteps.{unit_at, swap_op, scale_op, Operated};

use field::Tables;
pub use rows::{Row, all_zero, dot, row_from};

// The inverse of an element that is not zero.
fn inverse_of(a: u8) -> u8
    requires { 0 < a }
    ensures { times result a ≡ 1 }
{
    field::inverse(a)
}

// Rows i and j change places.
fn swapped(a: [[u8; 16]; 16], i: usize, j: usize) -> [[u8; 16]; 16]
    requires { (i < 16) × (j < 16) }
    ensures { Operated 16 (swap_op i j) a result }
{
    let mut out = a;
    out.swap(i, j);
    out
}

// The row v and c times the row w, added.
pub fn added_row(tables: &Tables, v: [u8; 16], w: [u8; 16], c: u8) -> [u8; 16]
    ensures { (j : ℕ) → j < 16 → at result j ≡ plus (at v j) (times c (at w j)) }
{
    let mut out = v;
    vector::add_multiple(tables, c, &w, &mut out);
    out
}

// Row r times c.
fn scaled(tables: &Tables, a: [[u8; 16]; 16], r: usize, c: u8) -> [[u8; 16]; 16]
    requires { r < 16 }
    ensures { Operated 16 (scale_op r c) a result }
{
    let mut out = a;
    let v = a[r];
    out[r] = added_row(tables, [0u8; 16], v, c);
    out
}

// The unit matrix.
fn unit() -> [[u8; 16]; 16]
    ensures { (i j : ℕ) → i < 16 → j < 16 → cells result i j ≡ unit_at j i }
{
    let mut out = [[0u8; 16]; 16];
    for (i, row) in out.iter_mut().enumerate() {
        row[i] = 1;
    }
    out
}

// What elimination found: the rank, and the combinations of the given rows that made the reduced ones.
#[derive(Clone, Copy)]
pub struct Reduced {
    pub rank: usize,
    pub combinations: [[u8; 16]; 16],
}

// Elimination over lent tables: column by column, a pivot is sought among the rows below the rank, brought up and made one, and the
// other rows are cleared by it. What is done to the rows is done to the unit matrix. The labelled loops are a form that document 01 names.
fn eliminated(tables: &Tables, a: [[u8; 16]; 16], k: usize, m: usize) -> Reduced
    requires { (k ≤ 16) × (m ≤ 16) }
    ensures { Reduces k m (cells a) (cells result.combinations) result.rank }
{
    let mut e = a;
    let mut t = unit();
    let mut top = 0;
    'columns: for col in 0..m {
        let mut r = top;
        let q = 'search: loop {
            if r >= k {
                continue 'columns;
            }
            if e[r][col] != 0 {
                break 'search r;
            }
            r += 1;
        };
        let c = inverse_of(e[q][col]);
        e = scaled(tables, swapped(e, top, q), top, c);
        t = scaled(tables, swapped(t, top, q), top, c);
        'rows: for i in 0..k {
            if i == top {
                continue 'rows;
            }
            let x = e[i][col];
            e[i] = added_row(tables, e[i], e[top], x);
            t[i] = added_row(tables, t[i], t[top], x);
        }
        top += 1;
    }
    Reduced {
        rank: top,
        combinations: t,
    }
}

// Elimination on a copy of the first k rows of a, m elements each.
pub fn reduce(a: [[u8; 16]; 16], k: usize, m: usize) -> Reduced
    requires { (k ≤ 16) × (m ≤ 16) }
    ensures { Reduces k m (cells a) (cells result.combinations) result.rank }
{
    let tables = Tables::new();
    eliminated(&tables, a, k, m)
}

// Column j.
fn column(a: [[u8; 16]; 16], j: usize) -> [u8; 16]
    requires { j < 16 }
    ensures { (i : ℕ) → i < 16 → at result i ≡ cells a i j }
{
    let mut out = [0u8; 16];
    for (i, element) in out.iter_mut().enumerate() {
        *element = a[i][j];
    }
    out
}

// Rows and columns exchanged.
pub fn turned(a: [[u8; 16]; 16]) -> [[u8; 16]; 16]
    ensures { (i j : ℕ) → i < 16 → j < 16 → cells result i j ≡ cells a j i }
{
    let mut out = [[0u8; 16]; 16];
    for (i, row) in out.iter_mut().enumerate() {
        *row = column(a, i);
    }
    out
}

// Carries the law of a row that is not kept: without its proof the crate is not proved.
pub fn last_is_combined()
    ensures { LastIsCombined }
{}
