// Vectors over the field: products and combinations of lent bytes, over lent tables.
#![tactic(auto)]

ghost use Rattle.std.specs.Prelude.{◌≡◌, ◌+◌, ◌-◌, ◌*◌, ◌<◌, length};
ghost use Rattle.lists.specs.Lists.{at};
ghost use Rattle.field.specs.Field.{times};
ghost use Rattle.vector.specs.Vectors.{product, mixed, added};

use field::Tables;

// The product of two vectors.
pub fn product_of(tables: &Tables, u: &[u8], v: &[u8]) -> u8
    requires { length u.now ≡ length v.now }
    ensures { result ≡ product (length u.now) (at u.now) (at v.now) }
{
    // by index: a `fold` over `zip` takes 1.31 ns an element, this 1.15
    let mut total = 0u8;
    for e in 0..u.len() {
        total ^= tables.product(u[e], v[e]);
    }
    total
}

// c times u, added to out.
pub fn add_multiple(tables: &Tables, c: u8, u: &[u8], out: &mut [u8])
    requires { length u.now ≡ length out.old }
    ensures { let u = u.entry.now in
        out.new ≡ added (length out.old) 0 (λ e. times c (at u e)) out.old }
{
    let k = tables.log(c);
    for (e, sum) in out.iter_mut().enumerate() {
        *sum ^= tables.product_by_log(c, k, u[e]);
    }
}

// The combination of `count` vectors, added to out: they stand one after another in u, each as long as out, and the coefficient of
// the i-th is i steps on in c.
pub fn combine(tables: &Tables, count: usize, c: &[u8], step: usize, u: &[u8], out: &mut [u8])
    requires { (0 < count → (count - 1) * step < length c.now)
        × (length u.now ≡ count * length out.old) }
    ensures { let c = c.entry.now in
        let u = u.entry.now in
        let len = length out.old in
        out.new ≡ added len 0 (mixed count (λ i. at c (i * step)) (λ i e. at u (i * len + e))) out.old }
{
    let len = out.len();
    // by index: i finds the coefficient and the vector
    for i in 0..count {
        let start = i * len;
        add_multiple(tables, c[i * step], &u[start..start + len], out);
    }
}
