// The relations of a record as a set in one word. A question covers only one that has all its relations, so that most
// tests that fail are ended by a look at two sets.
ghost use Rattle.std.specs.Prelude.{◌≡◌, ◌+◌, ◌*◌, ◌≤◌, length};
ghost use Rattle.covering.specs.Record.{stored, atoms_at, question_of, SoundRecord};
ghost use Rattle.records.specs.Relations.{relations_of, are_in, is_part};

// The set of the relations of the n atoms of s from i on.
pub fn relations_at(s: &[u8], i: usize, n: usize) -> u64
    requires { i + n * 7 ≤ length s.now }
    ensures { result ≡ relations_of (atoms_at stored s.now i n) }
{
    let mut set = 0u64;
    for k in 0..n {
        set |= 1u64 << (s[i + k * 7] % 64);
    }
    set
}

// The set of the record's relations.
#[tactic(auto, unfolding(covering::specs::Record::question_of))]
pub fn relations(s: &[u8]) -> u64
    requires { SoundRecord stored s.now }
    ensures { result ≡ relations_of (question_of stored s.now) }
{
    relations_at(s, 1, usize::from(s[0]))
}

// Whether all relations of the record are in the set.
pub fn are_among(s: &[u8], set: u64) -> bool
    requires { SoundRecord stored s.now }
    ensures { result ≡ are_in set (question_of stored s.now) }
{
    (0..usize::from(s[0])).all(|k| (set >> (s[1 + k * 7] % 64)) % 2 == 1)
}

// Whether every relation of the set s is in the set t.
#[tactic(auto, unfolding(crate::specs::Relations::is_part))]
pub fn is_part(s: u64, t: u64) -> bool
    ensures { result ≡ is_part s t }
{
    s | t == t
}
