// The greedy choice: of the candidates among some rows, in order, each that is independent of those taken before it.
#![tactic(auto)]

mod candidates;
mod reducing;
mod rows;

ghost use Rattle.std.specs.Prelude.{◌≡◌, ℕ, ◌+◌, ◌<◌, ◌≤◌};
ghost use Rattle.lists.specs.Lists.{at};
ghost use Rattle.linear.specs.PrivateRows.{kept};
ghost use Rattle.linear.specs.PrivateElimination.{cells};
ghost use Rattle.choice.specs.PrivateChoice.{row_at, offered, Progress, WholeChoice};

pub use candidates::Candidates;
use field::Tables;
use linear::Row;
use reducing::{cleared, extended, pivot};
pub use rows::Rows;

// The rows taken, by number and in order, and how many candidates were consulted for them. No heap: as many numbers as there can be.
#[derive(Clone, Copy)]
pub struct Chosen {
    pub count: usize,
    pub consulted: usize,
    pub numbers: [u8; 16],
}

// The choice among the first k + 1 rows, from that among the first k. The reduced rows stand each at the index of its pivot.
fn consult(
    tables: &Tables,
    rows: &Rows,
    candidates: [bool; 48],
    reduced: &mut [[u8; 16]; 16],
    c: Chosen,
    k: usize,
) -> Chosen
    requires { (k < rows.now.count)
        × (c.count < rows.now.m)
        × Progress rows.now.m (row_at rows.now) (offered candidates) k reduced.old c }
    ensures { let rows = rows.entry.now in
        Progress rows.m (row_at rows) (offered candidates) (k + 1) reduced.new result }
{
    if !candidates[k] {
        return c;
    }
    let consulted = c.consulted + 1;
    let row = rows.row(k);
    let v = cleared(tables, *reduced, row.bytes, rows.m);
    let Some(p) = pivot(v, rows.m) else {
        return Chosen { consulted, ..c };
    };
    let mut numbers = c.numbers;
    numbers[c.count] = k as u8;
    *reduced = extended(tables, *reduced, v, p);
    Chosen {
        count: c.count + 1,
        consulted,
        numbers,
    }
}

impl<'a> Rows<'a> {
    // Row k.
    fn row(&self, k: usize) -> Row
        requires { k < self.now.count }
        ensures { let rows = self.now in
            result ≡ kept rows.m (row_at rows k) }
    {
        let first = self.start + k * self.stride;
        linear::row_from(&self.bytes[first..first + self.m])
    }

    // The rows taken, up to the m-th.
    pub fn choose<C: Candidates>(&self, candidates: C) -> Chosen
        ensures { let rows = self.now in
            WholeChoice rows.count rows.m (row_at rows) (offered (C.marked candidates)) result }
    {
        let marks = candidates.marks();
        let tables = Tables::new();
        let mut c = Chosen {
            count: 0,
            consulted: 0,
            numbers: [0u8; 16],
        };
        let mut reduced = [[0u8; 16]; 16];
        // by index: k is the number that is listed
        for k in 0..self.count {
            if c.count == self.m {
                return c;
            }
            c = consult(&tables, self, marks, &mut reduced, c, k);
        }
        c
    }

    // The rows of the first `count` of these numbers.
    pub fn rows_of(&self, numbers: [u8; 16], count: usize) -> [[u8; 16]; 16]
        requires { (count ≤ self.now.m)
            × ((t : ℕ) → t < count → at numbers t < self.now.count) }
        ensures { let rows = self.now in
            ((t i : ℕ) → t < count → i < rows.m → cells result t i ≡ row_at rows (at numbers t) i) }
    {
        let mut out = [[0u8; 16]; 16];
        // by index: t names a number and its row
        for t in 0..count {
            let row = self.row(usize::from(numbers[t]));
            let bytes = row.bytes;
            out[t] = bytes;
        }
        out
    }
}
