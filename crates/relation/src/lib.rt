// A relation in words: a pair's bit, read and set.
#![tactic(auto)]

ghost use Rattle.std.specs.Prelude.{◌≡◌, ℕ, ◌+◌, ◌*◌, ◌-◌, ◌/◌, ◌%◌, ◌^◌, ◌≤◌, ◌<◌, length, get_or, set};
ghost use Rattle.relation.specs.Words.{bit_of, with_pair};

// Whether the pair of row b and column a is in a relation. Both clauses, which may not change, take any slice of 1,024 words or more, lent or a caller's
// own, so a relation is no type of its own.
#[tactic(auto, using(crate::specs::Words::bit_read))]
pub fn holds(rel: &[u64], b: usize, a: usize) -> bool
    requires { (1024 ≤ length rel.now) × (b < 256) × (a < 256) }
    ensures { result ≡ bit_of rel.now b a }
{
    (rel[4 * b + a / 64] >> (a % 64)) & 1 == 1
}

// Puts the pair of row b and column a into a relation.
#[tactic(auto, using(crate::specs::Words::pair_set))]
pub fn put(rel: &mut [u64], b: usize, a: usize)
    requires { (1024 ≤ length rel.old) × (b < 256) × (a < 256) }
    ensures { rel.new ≡ with_pair rel.old b a }
{
    rel[4 * b + a / 64] |= 1 << (a % 64);
}
