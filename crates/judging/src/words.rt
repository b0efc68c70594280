// Sizes, bytes, words and ranges.
ghost use Rattle.std.specs.Prelude.{◌≡◌, ◌+◌, ◌*◌, ◌<◌, ◌≤◌, length};
ghost use Rattle.reading.specs.Word.{word as word_at};
ghost use Rattle.reading.specs.Header.{in_bounds as is_within};

// The bytes of an old book's header, and of a new one's.
pub const OLD_HEADER: usize = 18;

pub const NEW_HEADER: usize = 20;

// The places of an atom in either, and in a new book its bytes.
pub const OLD_PLACES: usize = 4;

pub const PLACES: usize = 6;

pub const ATOM: usize = 7;

// The most places that an answer record uses.
pub const ANSWERS: usize = 4;

// Bytes: an unused place, and an answer record's relation.
pub const UNUSED: usize = 255;

pub const ANSWER: usize = 255;

// The little-endian word at i.
pub fn word(s: &[u8], i: usize) -> usize
    requires { i + 2 ≤ length s.now }
    ensures { (result ≡ word_at s.now i) × (result < 65536) }
{
    usize::from(u16::from_le_bytes([s[i], s[i + 1]]))
}

// The bytes of n atoms of w places.
pub fn atoms_size(w: usize, n: usize) -> usize
    requires { (w ≤ 6) × (n ≤ 65536) }
    ensures { (result ≡ (1 + w) * n) × (result ≤ 7 * n) }
{
    (1 + w) * n
}

// How many variables there are where atoms have w places: 32 or 48.
pub fn variables(w: usize) -> usize
    requires { w ≤ 6 }
    ensures { result ≡ 8 * w }
{
    8 * w
}

// Whether n is least to most: the library's test of a range, proved once to be the table's.
pub fn within(n: usize, least: usize, most: usize) -> bool
    ensures { result ≡ is_within least most n }
{
    (least..=most).contains(&n)
}
