// A row against the rows that were reduced before it: each has a pivot of one, and stands at that index among zeros.
ghost use Rattle.std.specs.Prelude.{◌<◌, ◌≤◌, MatchOption};
ghost use Rattle.lists.specs.Lists.{at};
ghost use Rattle.linear.specs.PrivateElimination.{cells};
ghost use Rattle.choice.specs.PrivateReduced.{Echelon, Cleared, Pivot, Extended};

use field::Tables;

// The row v, cleared at the pivots of the reduced rows.
pub fn cleared(tables: &Tables, reduced: [[u8; 16]; 16], v: [u8; 16], m: usize) -> [u8; 16]
    requires { (m ≤ 16) × Echelon m (cells reduced) }
    ensures { Cleared m m (cells reduced) (at v) (at result) }
{
    let mut out = v;
    // by index: p is a row and its element
    for p in 0..m {
        if reduced[p][p] != 0 {
            out = linear::added_row(tables, out, reduced[p], out[p]);
        }
    }
    out
}

// The index of the first of m elements that is not zero, a row's pivot.
pub fn pivot(v: [u8; 16], m: usize) -> Option<usize>
    requires { m ≤ 16 }
    ensures { MatchOption result (Pivot m (at v) m) (λ p. (p < m) × Pivot m (at v) p) }
{
    v[..m].iter().position(|x| *x != 0)
}

// The reduced rows with v among them, at its pivot p, which becomes one.
pub fn extended(tables: &Tables, reduced: [[u8; 16]; 16], v: [u8; 16], p: usize) -> [[u8; 16]; 16]
    requires { p < 16 }
    ensures { Extended p (cells reduced) (at v) (cells result) }
{
    let mut out = reduced;
    out[p] = linear::added_row(tables, [0u8; 16], v, field::inverse(v[p]));
    out
}
