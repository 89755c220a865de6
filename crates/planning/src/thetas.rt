// Thetas, from the combinations that elimination on the columns of the repair rows taken gives. One sees a row where their product is not
// zero.
ghost use Rattle.std.specs.Prelude.{◌≡◌, ℕ, ◌*◌, ◌<◌, ◌≤◌, length, MatchOption};
ghost use Rattle.lists.specs.Lists.{at, tab, grid};
ghost use Rattle.vector.specs.Vectors.{product};
ghost use Rattle.linear.specs.PrivateRows.{kept};
ghost use Rattle.linear.specs.PrivateElimination.{cells};
ghost use Rattle.archive.specs.Plan.{wanted_row};
ghost use Rattle.planning.specs.PrivatePlan.{row_for, FirstSeen, Reaching};

use field::Tables;
use linear::Row;
use sizes::Sizes;

// The rows that are wanted, one after another: m elements for each place of a node.
#[derive(Clone, Copy)]
pub struct Wanted<'a> {
    pub z: Sizes,
    pub rows: &'a [u8],
    pub ghost width: { z.m ≤ 16 },
    pub ghost few: { z.places ≤ 8 },
    pub ghost long: { length rows.now ≡ z.places * z.m },
}

// The product of a row and a combination, which is kept as sixteen bytes.
fn seen(tables: &Tables, row: Row, v: [u8; 16], m: usize) -> u8
    requires { m ≤ 16 }
    ensures { result ≡ product m (at row.bytes) (at v) }
{
    linear::dot(tables, row, &v[..m])
}

// The combination of the row with a number, where that is among the first `count` of these, the last where it is there twice; zeros where
// it is not.
fn vector_of(
    combinations: [[u8; 16]; 16],
    numbers: [u8; 16],
    count: usize,
    number: usize,
) -> [u8; 16]
    requires { count ≤ 16 }
    ensures { (e : ℕ) → e < 16 → at result e ≡ row_for count (at numbers) (cells combinations) number e }
{
    match numbers[..count]
        .iter()
        .rposition(|n| usize::from(*n) == number)
    {
        Some(i) => combinations[i],
        None => [0u8; 16],
    }
}

impl<'a> Wanted<'a> {
    // The row of place k.
    fn row(&self, k: usize) -> Row
        requires { k < self.now.z.places }
        ensures { let wanted = self.now in
            result ≡ kept wanted.z.m (wanted_row wanted.z wanted.rows.now k) }
    {
        let first = k * self.z.m;
        linear::row_from(&self.rows[first..first + self.z.m])
    }

    // The index of the first combination from `from` on that sees row k.
    fn first_seen(
        &self,
        tables: &Tables,
        combinations: [[u8; 16]; 16],
        from: usize,
        k: usize,
    ) -> Option<usize>
        requires { (k < self.now.z.places) × (from ≤ self.now.z.m) }
        ensures { let wanted = self.now in
            let first : ℕ → Type 0 = FirstSeen from wanted.z.m (cells combinations) (wanted_row wanted.z wanted.rows.now k) in
            MatchOption result (first wanted.z.m) (λ p. (p < wanted.z.m) × first p) }
    {
        let row = self.row(k);
        (from..self.z.m).find(|i| seen(tables, row, combinations[*i], self.z.m) != 0)
    }

    // Whether no row is seen past the first `count` combinations.
    pub fn reached(&self, tables: &Tables, combinations: [[u8; 16]; 16], count: usize) -> bool
        requires { count ≤ self.now.z.m }
        ensures { let wanted = self.now in
            Reaching wanted.z.places count wanted.z.m (cells combinations) (wanted_row wanted.z wanted.rows.now) result }
    {
        (0..self.z.places).all(|k| self.first_seen(tables, combinations, count, k).is_none())
    }

    // The thetas of a repair block: the products of the rows and its vector, which is zero where the block was not taken.
    fn write_block(&self, tables: &Tables, v: [u8; 16], thetas: &mut [u8])
        requires { length thetas.old ≡ self.now.z.places }
        ensures { let wanted = self.now in
            thetas.new ≡ tab wanted.z.places (λ k. product wanted.z.m (wanted_row wanted.z wanted.rows.now k) (at v)) }
    {
        if linear::all_zero(Row { bytes: v }, self.z.m) {
            thetas.fill(0);
            return;
        }
        for (k, theta) in thetas.iter_mut().enumerate() {
            *theta = seen(tables, self.row(k), v, self.z.m);
        }
    }

    // The thetas of `blocks` repair blocks, of which the first `count` of these numbers were taken.
    pub fn write_thetas(
        &self,
        tables: &Tables,
        combinations: [[u8; 16]; 16],
        numbers: [u8; 16],
        count: usize,
        blocks: usize,
        thetas: &mut [u8],
    )
        requires { (count ≤ 16) × (blocks ≤ 40) × (length thetas.old ≡ blocks * self.now.z.places) }
        ensures { let wanted = self.now in
            let seen : ℕ → ℕ → ℕ = row_for count (at numbers) (cells combinations) in
            thetas.new
            ≡ grid blocks wanted.z.places 0 (λ t k. product wanted.z.m (wanted_row wanted.z wanted.rows.now k) (seen t)) thetas.old }
    {
        let places = self.z.places;
        // by index: after `chunks_exact_mut` a proof knows the length of thetas alone
        for t in 0..blocks {
            let v = vector_of(combinations, numbers, count, t);
            let first = t * places;
            self.write_block(tables, v, &mut thetas[first..first + places]);
        }
    }
}
