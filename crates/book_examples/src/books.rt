// The books that are read and changed.
ghost use Rattle.std.specs.Prelude.{◌≡◌, length};

// The book that 01 prints the union of: 3 relations, one rule, a question of two atoms.
pub fn sample() -> [u8; 48]
    ensures { 48 ≡ length result }
{
    *b"\x03\0\0\0\x01\0\x02\0\x0a\0\x12\0\x15\0\x26\0\x30\0\x01\x01\x02\x01\x02\
       \x00\x00\xff\xff\xff\x01\x01\xff\xff\xff\x02\x00\x01\xff\xff\
       \x01\x00\xff\xff\xff\x02\x01\x00\xff\xff"
}

// A book of one relation with one byte between relations and question, where no rule fits.
pub fn small() -> [u8; 25] {
    *b"\x01\0\0\0\x01\0\x01\0\x01\0\x12\0\x13\0\x14\0\x19\0\x01\x01\x00\x00\xff\xff\xff"
}

// A book with no rule.
pub fn bare() -> [u8; 24] {
    *b"\x01\0\0\0\0\0\x01\0\x01\0\x12\0\x13\0\x13\0\x18\0\x01\x00\x00\xff\xff\xff"
}

// A book with no rule whose question has answer places: two relations, one constant, a(v0,c0) r0(v0) r1(v1,v0).
pub fn asked() -> [u8; 35]
    ensures { 35 ≡ length result }
{
    *b"\x02\0\x01\0\0\0\x02\0\x0a\0\x12\0\x14\0\x14\0\x23\0\x01\x02\
       \xff\x00\x80\xff\xff\x00\x00\xff\xff\xff\x01\x01\x00\xff\xff"
}
