// The code's table solved for a list of lost shards, by elimination. A table has m rows and n = k + m columns, row after row in a
// lent slice: entry r of row j stands at j * n + r. Every public function takes any numbers and any slices.
#![tactic(auto)]

ghost use Rattle.std.specs.Prelude.{◌≡◌, ◌≢◌, ◌+◌, ◌*◌, ◌≤◌, ◌<◌, length, drop, get_or, unwrap_or};
ghost use Rattle.field.specs.Field.{mul_of};
ghost use Rattle.codeword.specs.Stripe.{InRange, k_most, m_most, coef, has};
ghost use Rattle.codeword.specs.Table.{unit, column, entry, Columns, SolvedFor};
ghost use Rattle.solve.specs.Lost.{shards_of, Lost, solvable_of, Solves};
ghost use Rattle.solve.specs.Rows.{Added, Exchanged, Turned};
ghost use Rattle.solve.specs.Pivot.{Pivot};
ghost use Rattle.solve.specs.Solving.{SolvedTo, clearing};

// The limits of document 01, section 2.
pub const K_LEAST: usize = 2;

pub const K_MOST: usize = 16;

pub const M_LEAST: usize = 1;

pub const M_MOST: usize = 3;

// Whether shard `a` stands in the list from place `from` on.
pub fn named(list: &[u8], from: usize, a: u8) -> bool
    ensures { result ≡ has (drop from list.now) a }
{
    list.iter().skip(from).any(|x| *x == a)
}

// Whether each shard of the list is below n, and none is named twice.
pub fn shards(n: usize, list: &[u8]) -> bool
    ensures { result ≡ shards_of n list.now }
{
    for (i, &a) in list.iter().enumerate() {
        if n <= usize::from(a) || named(list, i + 1, a) {
            return false;
        }
    }
    true
}

// The coefficient of data shard i in parity shard j, of m.
fn coefficient(m: usize, j: usize, i: usize) -> u8
    requires { (i < k_most) × (j < m_most) }
    ensures { result ≡ coef m j i }
{
    field::power_of_g(i * j)
}

// 1 where the two are equal, else 0.
fn one_where(i: usize, j: usize) -> u8
    ensures { result ≡ unit i j }
{
    u8::from(i == j)
}

// Adds c times row src to row dst. The two may be the same row. Where c is 0, as at the columns of most parity shards, nothing is to
// be done. (It and the other functions on rows take the row's length alone: as methods of a shape each would add k and m again.)
fn add_row(e: &mut [u8], n: usize, dst: usize, src: usize, c: u8)
    requires n_in_bounds { dst * n + n ≤ length e.old }
    requires n_in_bounds_2 { src * n + n ≤ length e.old }
    ensures { Added n dst src c e.old e.new }
{
    if c == 0 {
        return;
    }
    let to = dst * n;
    let from = src * n;
    for i in 0..n {
        let d = e[to + i];
        let s = e[from + i];
        e[to + i] = d ^ field::mul(c, s);
    }
}

// The first row from c on whose entry at column a is not 0.
fn pivot(e: &[u8], n: usize, m: usize, c: usize, a: usize) -> Option<usize>
    requires e_len { length e.now ≡ m * n }
    requires c_le_m { (c ≤ m) × (a < n) }
    ensures { Pivot n m c a e.now (unwrap_or result m) }
{
    (c..m).find(|j| e[*j * n + a] != 0)
}

// Exchanges rows c and j, which are one row at most steps.
fn exchange(e: &mut [u8], n: usize, c: usize, j: usize)
    requires n_in_bounds { c * n + n ≤ length e.old }
    requires n_in_bounds_2 { j * n + n ≤ length e.old }
    ensures { Exchanged n c j e.old e.new }
{
    if c == j {
        return;
    }
    for i in 0..n {
        e.swap(c * n + i, j * n + i);
    }
}

// The quotient by a byte that is not 0.
fn quotient(a: u8, b: u8) -> u8
    requires { b ≢ 0 }
    ensures { mul_of b result ≡ a }
{
    field::div(a, b).unwrap_or(0)
}

// Makes column a the unit column of row c, whose entry there is 1: adds to each other row the multiple of row c that clears it.
fn clear_column(e: &mut [u8], n: usize, m: usize, c: usize, a: usize)
    requires e_len { length e.old ≡ m * n }
    requires c_lt_m { (c < m) × (a < n) }
    requires a_value { entry n e.old c a ≡ 1 }
    ensures { Turned m n c (clearing n c a e.old) e.old e.new }
{
    for j in 0..m {
        let x = e[j * n + a];
        add_row(e, n, j, c, x ^ one_where(j, c));
    }
}

// How many data shards and how many parity shards there are, where the code is for so many.
#[derive(Clone, Copy)]
struct Shape {
    k: usize,
    m: usize,
    ghost in_range: { InRange k m },
}

impl Shape {
    // The entry of shard r's column in row j.
    fn column_entry(self, r: usize, j: usize) -> u8
        requires { j < self.m }
        ensures { result ≡ column self.k self.m r j }
    {
        if r < self.k {
            coefficient(self.m, j, r)
        } else {
            one_where(r, self.k + j)
        }
    }

    // Writes the code's own table.
    fn fill(self, e: &mut [u8])
        requires { length e.old ≡ self.m * (self.k + self.m) }
        ensures { Columns self.k self.m e.new }
    {
        let n = self.k + self.m;
        for (p, x) in e.iter_mut().enumerate() {
            *x = self.column_entry(p % n, p / n);
        }
    }

    // Brings to row c a row whose entry at the column of the list's shard c is not 0.
    fn lead(self, lost: &[u8], c: usize, e: &mut [u8])
        requires lost { Lost self.k self.m lost.now }
        requires c_in_bounds { c < length lost.now }
        requires solved_to { SolvedTo self.k self.m c lost.now e.old }
        ensures solved_to_2 { SolvedTo self.k self.m c lost.now e.new }
        ensures c_nonzero { entry (self.k + self.m) e.new c (get_or lost.now c 0) ≢ 0 }
    {
        let n = self.k + self.m;
        if let Some(j) = pivot(e, n, self.m, c, usize::from(lost[c])) {
            exchange(e, n, c, j);
        }
    }

    // Solves the table for the list's shard c, where it is solved for those before. Row c is divided by its entry x at that shard's
    // column: (1 + x) / x times row c is added to it.
    fn step(self, lost: &[u8], c: usize, e: &mut [u8])
        requires lost { Lost self.k self.m lost.now }
        requires c_in_bounds { c < length lost.now }
        requires solved_to { SolvedTo self.k self.m c lost.now e.old }
        ensures { SolvedTo self.k self.m (c + 1) lost.now e.new }
    {
        self.lead(lost, c, e);
        let n = self.k + self.m;
        let a = usize::from(lost[c]);
        let x = e[c * n + a];
        add_row(e, n, c, c, quotient(1 ^ x, x));
        clear_column(e, n, self.m, c, a);
    }

    // Writes the code's table, solved for the shards of the list: row c gives shard c of the list from shards that are not in it.
    fn eliminate(self, lost: &[u8], e: &mut [u8])
        requires lost { Lost self.k self.m lost.now }
        requires e_len { length e.old ≡ self.m * (self.k + self.m) }
        ensures { SolvedFor self.k self.m lost.now e.new }
    {
        self.fill(e);
        for c in 0..lost.len() {
            self.step(lost, c, e);
        }
    }
}

// Whether k and m are in range, the list names at most m shards and none twice, and `size` is that of a table.
#[tactic(auto, unfolding(crate::specs::Lost::solvable_of))]
fn solvable(k: usize, m: usize, lost: &[u8], size: usize) -> bool
    ensures { result ≡ solvable_of k m lost.now size }
{
    (K_LEAST..=K_MOST).contains(&k)
        && (M_LEAST..=M_MOST).contains(&m)
        && lost.len() <= m
        && shards(k + m, lost)
        && size == m * (k + m)
}

// Writes the code's table, solved for the shards of the list. Where there is no such table, or it has another size, nothing changes.
pub fn solve(k: usize, m: usize, lost: &[u8], e: &mut [u8])
    ensures { Solves (solvable_of k m lost.now (length e.old)) k m lost.now e.old e.new }
{
    if solvable(k, m, lost, e.len()) {
        Shape { k, m }.eliminate(lost, e);
    }
}
