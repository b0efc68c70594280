// The form of a member record: equal atoms are dropped but for the first, then variables are numbered 0, 1, .. by
// first appearance. A record is built in place, at the front of 85 bytes, the rest 255.
ghost use Rattle.std.specs.Prelude.{◌≡◌, true, List, [], ◌∷◌, ◌++◌, ℕ, ◌+◌, ◌≤◌, ◌<◌, length, get_or};
ghost use Rattle.covering.specs.Term.{on_term, on_atom, eq_atom, terms};
ghost use Rattle.covering.specs.Form.{dedup, firsts, renumber, form};
ghost use Rattle.covering.specs.Record.{stored, term_of, byte_of, atom_at, atoms_at, question_of, atom_bytes, AtomFits, SoundRecord};
ghost use Rattle.covering.specs.Buffer.{held_in, AtomIn, AtomsIn, RoomLeft, record_room};
ghost use Rattle.records.specs.Holding.{HeldRecord};
ghost use Rattle.forming.specs.Building.{has, added, seen, all_seen, new_number, sub_of, NumberTable};

use covering::RECORD;
use records::{Held, Record, no_atoms};

// Whether the atom of first at i is the atom of second at k: the same seven bytes.
fn same_atom(first: &[u8], second: &[u8], i: usize, k: usize) -> bool
    requires { AtomIn stored first.now i × AtomIn stored second.now k }
    ensures { result ≡ eq_atom (atom_at stored first.now i) (atom_at stored second.now k) }
{
    first[i..i + 7] == second[k..k + 7]
}

// Whether the atom of from at `at` is among the n atoms of kept that start at i.
fn has_atom(kept: &[u8], i: usize, n: usize, from: &[u8], at: usize) -> bool
    requires { AtomsIn stored kept.now i n × AtomIn stored from.now at }
    ensures { result
        ≡ has eq_atom (atoms_at stored kept.now i n) (atom_at stored from.now at) }
{
    for k in 0..n {
        if same_atom(kept, from, i + k * 7, at) {
            return true;
        }
    }
    false
}

// Puts the atom of from at `at` after the record's own atoms. From may be any bytes that have an atom there.
pub fn put_atom(kept: &mut [u8], from: &[u8], at: usize)
    requires { RoomLeft stored record_room kept.old × AtomIn stored from.now at }
    ensures { kept.new
        ≡ held_in
        stored
        record_room
        (question_of stored kept.old ++ atom_at stored from.now at ∷ []) }
{
    let n = kept[0];
    let start = records::width(n);
    kept[0] = n + 1;
    kept[start..start + 7].copy_from_slice(&from[at..at + 7]);
}

// The same in a record of its own.
pub fn add_atom(kept: &mut Held, from: &[u8], at: usize)
    requires { (length kept.old < 12) × AtomIn stored from.now at }
    ensures { kept.new ≡ kept.old ++ atom_at stored from.now at ∷ [] }
{
    put_atom(&mut kept.bytes, from, at);
}

// The same where the atom is not among the record's own; else the record stays as it is.
fn put_new(kept: &mut Held, from: &[u8], at: usize)
    requires { (length kept.old < 12) × AtomIn stored from.now at }
    ensures { kept.new ≡ added eq_atom kept.old (atom_at stored from.now at) }
{
    let n = usize::from(kept.bytes[0]);
    if !has_atom(&kept.bytes, 1, n, from, at) {
        add_atom(kept, from, at);
    }
}

// The record with equal atoms dropped but for the first.
fn drop_equal(member: &Record<'_>) -> Held
    ensures { result ≡ dedup member.now }
{
    let mut kept = Held::empty();
    let n = usize::from(member.bytes[0]);
    for k in 0..n {
        put_new(&mut kept, member.bytes, 1 + k * 7);
    }
    kept
}

// Whether no two of the record's atoms are equal: then none is dropped, and nothing needs copying.
fn all_differ(member: &Record<'_>) -> bool
    ensures { result ≡ true → dedup member.now ≡ member.now }
{
    let n = usize::from(member.bytes[0]);
    for k in 0..n {
        let at = 1 + k * 7;
        if has_atom(member.bytes, at + 7, n - (k + 1), member.bytes, at) {
            return false;
        }
    }
    true
}

// The new numbers of variables, in a table: 255 for none yet; and how many are given.
#[derive(Drop)]
struct Numbers {
    table: [u8; 96],
    given: u8,
}

impl Numbers {
    // Gives the term t the next number, if it is a variable that has none.
    fn number_term(&mut self, t: u8)
        requires { (96 ≤ t → 128 ≤ t) × (self.old.given < 96) }
        ensures { (self.new.given ≤ self.old.given + 1)
            × ((S : List ℕ)
            → NumberTable S self.old.table self.old.given
            → NumberTable (seen S (term_of t)) self.new.table self.new.given) }
    {
        if 96 <= t {
            return;
        }
        let at = usize::from(t);
        if self.table[at] != 255 {
            return;
        }
        self.table[at] = self.given;
        self.given += 1;
    }

    // Numbers the variables of the atom of from at `at`, in order.
    fn number_atom(&mut self, from: &[u8], at: usize)
        requires { AtomIn stored from.now at × (self.old.given + 6 ≤ 96) }
        ensures { (self.new.given ≤ self.old.given + 6)
            × ((S : List ℕ)
            → NumberTable S self.old.table self.old.given
            → NumberTable (all_seen S (atom_at stored from.now at).args) self.new.table self.new.given) }
    {
        for j in 0..6 {
            let t = from[at + 1 + j];
            if t == 255 {
                return;
            }
            self.number_term(t);
        }
    }
}

// The new number of each variable of the record, by first appearance, and 255 for any other.
fn numbers_of(member: &Record<'_>) -> [u8; 96]
    ensures { (n : ℕ) → n < 96 → get_or result n 0 ≡ new_number (firsts (terms member.now)) n }
{
    let mut numbers = Numbers {
        table: [255; 96],
        given: 0,
    };
    for k in 0..usize::from(member.bytes[0]) {
        numbers.number_atom(member.bytes, 1 + k * 7);
    }
    numbers.table
}

// The byte t with a variable replaced by what the table has for it: a constant stays, and so does 255.
fn replaced(table: &[u8], t: u8) -> u8
    requires { (length table.now ≡ 96) × (96 ≤ t → 128 ≤ t) }
    ensures { result ≡ byte_of (on_term (sub_of table.now) (term_of t)) }
{
    if 96 <= t {
        return t;
    }
    table[usize::from(t)]
}

// The bytes of the atom of from at `at`, each variable replaced by the term whose byte the table has for it.
fn atom_on(table: &[u8], from: &[u8], at: usize) -> [u8; 7]
    requires { (length table.now ≡ 96) × AtomIn stored from.now at }
    ensures { result
        ≡ atom_bytes stored (on_atom (sub_of table.now) (atom_at stored from.now at)) }
{
    let mut atom = [255u8; 7];
    atom[0] = from[at];
    for j in 1..7 {
        atom[j] = replaced(table, from[at + j]);
    }
    atom
}

// Puts that atom, its variables so replaced, after the record's own.
pub fn put_on(kept: &mut [u8], table: &[u8], from: &[u8], at: usize)
    requires { RoomLeft stored record_room kept.old
        × (length table.now ≡ 96)
        × AtomIn stored from.now at
        × AtomFits stored (on_atom (sub_of table.now) (atom_at stored from.now at)) }
    ensures { kept.new
        ≡ held_in
        stored
        record_room
        (question_of stored kept.old
        ++ on_atom (sub_of table.now) (atom_at stored from.now at) ∷ []) }
{
    let atom = atom_on(table, from, at);
    put_atom(kept, &atom, 0);
}

// The same in a record of its own.
pub fn add_on(kept: &mut Held, table: &[u8; 96], from: &[u8], at: usize)
    requires { (length kept.old < 12)
        × AtomIn stored from.now at
        × AtomFits stored (on_atom (sub_of table.now) (atom_at stored from.now at)) }
    ensures { kept.new ≡ kept.old ++ on_atom (sub_of table.now) (atom_at stored from.now at) ∷ [] }
{
    put_on(&mut kept.bytes, table, from, at);
}

// Puts the record's atoms, its variables numbered by first appearance, in the bytes of one that has no atom yet.
fn put_renumbered(member: &Record<'_>, out: &mut [u8; RECORD])
    requires { out.old ≡ held_in stored record_room [] }
    ensures { HeldRecord out.new × (question_of stored out.new ≡ renumber member.now) }
{
    let table = numbers_of(member);
    for k in 0..usize::from(member.bytes[0]) {
        put_on(out, &table, member.bytes, 1 + k * 7);
    }
}

// Puts the form of the record there: equal atoms dropped but for the first, then variables numbered.
fn put_form(member: &Record<'_>, out: &mut [u8; RECORD])
    requires { out.old ≡ held_in stored record_room [] }
    ensures { HeldRecord out.new × (question_of stored out.new ≡ form member.now) }
{
    if all_differ(member) {
        put_renumbered(member, out);
        return;
    }
    let kept = drop_equal(member);
    put_renumbered(&kept.lent(), out);
}

// Writes the form of the record to the room lent.
pub fn in_form(member: &[u8; RECORD], out: &mut [u8; RECORD])
    requires { SoundRecord stored member.now }
    ensures { out.new ≡ held_in stored record_room (form (question_of stored member.now)) }
{
    *out = no_atoms();
    put_form(&Record { bytes: member }, out);
}

// The form of the record, in one of its own.
pub fn held_form(member: &Record<'_>) -> Held
    ensures { result ≡ form member.now }
{
    let mut out = Held::empty();
    put_form(member, &mut out.bytes);
    out
}
