// The table in memory: its own type with the limits, the answers of a call, the check 9, 4, 5, 6, 7, and an index of first edges for the layers above.
#![tactic(auto)]

ghost use Rattle.std.specs.Prelude.{◌≡◌, Some, ◌++◌, ℕ, Bool, ◌+◌, ◌*◌, ◌-◌, ◌≤◌, ◌<◌, length, get_or, take, drop};
ghost use Rattle.std.specs.List.{concat};
ghost use Rattle.ground.specs.Tests.{found};
ghost use Rattle.table.specs.Limits.{limits, lengths};
ghost use Rattle.table.specs.Answer.{number_of, place_of, text_of};
ghost use Rattle.table.specs.Lent.{lent, given, source_of};
ghost use Rattle.table.specs.Check.{over_limit, label_over, outside, before, label_wrong, edge_wrong, order_wrong, contents_of, check_of, known_of, edge_of};
ghost use Rattle.table.specs.Edges.{first_edge, index_of};

use std::error::Error;
use std::fmt;

// A table's counts: classes, edges, labels, roles. Its labels and edges are lent beside it.
#[derive(Clone, Copy, Debug, PartialEq, Eq)]
pub struct Table {
    pub n: usize,
    pub m: usize,
    pub p: usize,
    pub q: usize,
}

// How long lent buffers are at least.
#[derive(Clone, Copy, Debug, PartialEq, Eq)]
pub struct Lengths {
    pub labels: usize,
    pub edges: usize,
    pub relation: usize,
}

impl Table {
    pub const CLASSES: usize = 256;

    pub const EDGES: usize = 1024;

    pub const LABELS: usize = 64;

    pub const ROLES: usize = 64;

    // Three numbers for each edge.
    pub const NUMBERS: usize = 3 * Table::EDGES;

    // Four words for each row of a relation.
    pub const WORDS: usize = 4 * Table::CLASSES;

    // The largest counts.
    pub fn limits() -> Table
        ensures { result ≡ limits }
    {
        Table {
            n: Table::CLASSES,
            m: Table::EDGES,
            p: Table::LABELS,
            q: Table::ROLES,
        }
    }

    // The least lengths of lent labels, edges and relations.
    pub fn lengths() -> Lengths
        ensures { result ≡ lengths }
    {
        Lengths {
            labels: Table::CLASSES,
            edges: Table::NUMBERS,
            relation: Table::WORDS,
        }
    }
}

// Why a call is refused, named for what is wrong. The number that a variant holds is the place.
#[derive(Clone, Copy, Debug, PartialEq, Eq)]
pub enum Refusal {
    BadLength,
    BadCheck(usize),
    BadBlock(usize),
    OverLimit,
    LabelOutOfRange(usize),
    EdgeOutOfRange(usize),
    NotAscending(usize),
    NoSuchClass(usize),
    ShortBuffer,
    NoRoomForClasses,
    NoRoomForEdges,
}

impl Refusal {
    // The refusal's number, which C is answered by in place of the enum.
    pub fn number(self) -> usize
        ensures { result ≡ number_of self }
    {
        match self {
            Refusal::BadLength => 1,
            Refusal::BadCheck(_) => 2,
            Refusal::BadBlock(_) => 3,
            Refusal::OverLimit => 4,
            Refusal::LabelOutOfRange(_) => 5,
            Refusal::EdgeOutOfRange(_) => 6,
            Refusal::NotAscending(_) => 7,
            Refusal::NoSuchClass(_) => 8,
            Refusal::ShortBuffer => 9,
            Refusal::NoRoomForClasses => 10,
            Refusal::NoRoomForEdges => 11,
        }
    }

    // The refusal's place, which C is given beside the number.
    pub fn place(self) -> usize
        ensures { result ≡ place_of self }
    {
        match self {
            Refusal::BadCheck(block) => block,
            Refusal::BadBlock(block) => block,
            Refusal::LabelOutOfRange(class) => class,
            Refusal::EdgeOutOfRange(edge) => edge,
            Refusal::NotAscending(edge) => edge,
            Refusal::NoSuchClass(which) => which,
            Refusal::BadLength => 0,
            Refusal::OverLimit => 0,
            Refusal::ShortBuffer => 0,
            Refusal::NoRoomForClasses => 0,
            Refusal::NoRoomForEdges => 0,
        }
    }
}

impl fmt::Display for Refusal {
    ghost output = { λ r. Some (text_of r) };

    fn fmt<W: fmt::Write>(&self, f: &mut fmt::Formatter<W>) -> fmt::Result {
        write!(f, "refused {} at {}", self.number(), self.place())
    }
}

impl Error for Refusal {}

// An edge. Edges are ordered by source, then role, then target.
#[derive(Clone, Copy, Debug, PartialEq, Eq, PartialOrd, Ord)]
struct Edge {
    source: u16,
    role: u16,
    target: u16,
}

impl From<[u16; 3]> for Edge {
    ghost from_gives = { λ numbers edge. edge ≡ edge_of numbers };

    fn from([source, role, target]: [u16; 3]) -> Edge {
        Edge {
            source,
            role,
            target,
        }
    }
}

impl Edge {
    // Whether it stands before another: the derived order, with the clause that says that it is the order asked for.
    fn is_before(self, other: Edge) -> bool
        ensures { result ≡ before self.source self.role self.target other.source other.role other.target }
    {
        self < other
    }

    // Whether it has a class n or above, or a role q or above.
    fn is_outside(self, n: usize, q: usize) -> bool
        ensures { result ≡ outside n q self.source self.role self.target }
    {
        n <= self.source as usize || q <= self.role as usize || n <= self.target as usize
    }
}

// Whether a label set has a label p or above. No word is shifted by 64.
#[tactic(auto, using(crate::proofs::Tests::not_over))]
fn over(x: u64, p: usize) -> bool
    ensures { result ≡ label_over p x }
{
    p < Table::LABELS && (x >> p) != 0
}

// The lowest class with a label p or above.
fn bad_label(labels: &[u64], p: usize) -> Option<usize>
    ensures { result ≡ found (length labels.now) (label_wrong p labels.now) }
{
    labels.iter().position(|&set| over(set, p))
}

// The lowest edge with a class n or above, or a role q or above.
fn bad_edge(edges: &[[u16; 3]], n: usize, q: usize) -> Option<usize>
    ensures { result ≡ found (length edges.now) (edge_wrong n q (concat edges.now)) }
{
    edges
        .iter()
        .position(|&edge| Edge::from(edge).is_outside(n, q))
}

// The lowest edge that does not stand after the edge before it. `windows` would give its place less one.
fn bad_order(edges: &[[u16; 3]]) -> Option<usize>
    ensures { result ≡ found (length edges.now) (order_wrong (concat edges.now)) }
{
    (1..edges.len()).find(|&j| !Edge::from(edges[j - 1]).is_before(Edge::from(edges[j])))
}

// 5, 6, 7, of as many classes and edges as are given.
#[tactic(auto, using(crate::proofs::Tests::refused, crate::proofs::Tests::passed), unfolding(crate::specs::Check::contents_of))]
fn contents(labels: &[u64], edges: &[[u16; 3]], p: usize, q: usize) -> Result<(), Refusal>
    ensures { result ≡ contents_of (given labels.now edges.now p q) }
{
    if let Some(class) = bad_label(labels, p) {
        return Err(Refusal::LabelOutOfRange(class));
    }
    if let Some(edge) = bad_edge(edges, labels.len(), q) {
        return Err(Refusal::EdgeOutOfRange(edge));
    }
    if let Some(later) = bad_order(edges) {
        return Err(Refusal::NotAscending(later));
    }
    Ok(())
}

// The first m edges of a table's numbers: here the count that is lent beside a buffer goes into a slice.
fn edges_of(numbers: &[u16], m: usize) -> &[[u16; 3]]
    requires { 3 * m ≤ length numbers.now }
    ensures count { length result.now ≡ m }
    ensures same { concat result.now ≡ take (3 * m) numbers.now }
{
    numbers[..3 * m].as_chunks().0
}

// Whether a count is above its limit.
pub fn over_limit(t: Table) -> bool
    ensures { result ≡ over_limit t.n t.m t.p t.q }
{
    Table::CLASSES < t.n || Table::EDGES < t.m || Table::LABELS < t.p || Table::ROLES < t.q
}

// Whether a table in memory is allowed: 9, 4, 5, 6, 7. The counts stand beside the buffers, which are lent as C lends them and may be longer.
#[tactic(auto, unfolding(crate::specs::Check::check_of))]
pub fn check(t: Table, labels: &[u64], edges: &[u16]) -> Result<(), Refusal>
    ensures { result ≡ check_of (lent t labels.now edges.now) }
{
    if labels.len() < Table::CLASSES || edges.len() < Table::NUMBERS {
        return Err(Refusal::ShortBuffer);
    }
    if over_limit(t) {
        return Err(Refusal::OverLimit);
    }
    contents(&labels[..t.n], edges_of(edges, t.m), t.p, t.q)
}

// Whether the classes a and b are there: 8.
pub fn known(t: Table, a: usize, b: usize) -> Result<(), Refusal>
    ensures { result ≡ known_of t.n a b }
{
    if t.n <= a {
        return Err(Refusal::NoSuchClass(0));
    }
    if t.n <= b {
        return Err(Refusal::NoSuchClass(1));
    }
    Ok(())
}

// The first edge whose source is class c or a later one, or how many there are, which is what the index holds then. No edge before `from`, where the search for
// the class before ended, has such a source; what is asked for is a place in all of the edges, so `from` stands beside them.
// `index` promises this of edges in any order too, so no search by halves serves.
fn edge_from(edges: &[[u16; 3]], from: usize, c: usize) -> usize
    requires { (e : ℕ) → e < from → source_of (concat edges.now) e < c }
    ensures { result ≡ first_edge (concat edges.now) (length edges.now) c }
{
    (from..edges.len())
        .find(|&j| Edge::from(edges[j]).source as usize >= c)
        .unwrap_or(edges.len())
}

// For each class, and for n, the first of m edges whose source is that class or a later one. The counts stand beside the buffers, since the promise, which
// may not change, speaks of longer ones.
pub fn index(edges: &[u16], m: usize, n: usize, first: &mut [u16])
    requires { (3 * m ≤ length edges.now) × (m ≤ 1024) × (n < length first.old) }
    ensures { first.new ≡ index_of edges.now m n ++ drop (n + 1) first.old }
{
    let edges = edges_of(edges, m);
    let mut from = 0;
    for (c, entry) in first[..=n].iter_mut().enumerate() {
        from = edge_from(edges, from, c);
        *entry = from as u16;
    }
}
