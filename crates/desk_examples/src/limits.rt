// Records at the limits: eleven atoms, 44 variables, and a search that would not end in a lifetime without its
// look-ahead.
use crate::show;
use std::io;
use std::io::Write;

// 44 variables, each once, and as many constants.
pub fn eleven_atoms<W: Write>(out: &mut W) -> io::Result<()> {
    let variables = [
        11u8, 63, 0, 1, 2, 3, 63, 4, 5, 6, 7, 63, 8, 9, 10, 11, 63, 12, 13, 14, 15, 63, 16, 17, 18,
        19, 63, 20, 21, 22, 23, 63, 24, 25, 26, 27, 63, 28, 29, 30, 31, 63, 32, 33, 34, 35, 63, 36,
        37, 38, 39, 63, 40, 41, 42, 43,
    ];
    let constants = [
        11u8, 63, 128, 129, 130, 131, 63, 132, 133, 134, 135, 63, 136, 137, 138, 139, 63, 140, 141,
        142, 143, 63, 144, 145, 146, 147, 63, 148, 149, 150, 151, 63, 152, 153, 154, 155, 63, 156,
        157, 158, 159, 63, 160, 161, 162, 163, 63, 164, 165, 166, 167, 63, 168, 169, 170, 171,
    ];
    show(out, b"44 variables, 44 constants", &variables, &constants)?;
    show(out, b"44 constants, 44 variables", &constants, &variables)
}

// Ten atoms with eleven candidates each, 11^10 placements, and a last atom that fits nowhere.
pub fn late_misfit<W: Write>(out: &mut W) -> io::Result<()> {
    let free = [
        11u8, 0, 0, 1, 255, 255, 0, 2, 3, 255, 255, 0, 4, 5, 255, 255, 0, 6, 7, 255, 255, 0, 8, 9,
        255, 255, 0, 10, 11, 255, 255, 0, 12, 13, 255, 255, 0, 14, 15, 255, 255, 0, 16, 17, 255,
        255, 0, 18, 19, 255, 255, 1, 20, 255, 255, 255,
    ];
    let pairs = [
        11u8, 0, 128, 129, 255, 255, 0, 129, 130, 255, 255, 0, 130, 131, 255, 255, 0, 131, 132,
        255, 255, 0, 132, 133, 255, 255, 0, 133, 134, 255, 255, 0, 134, 135, 255, 255, 0, 135, 136,
        255, 255, 0, 136, 137, 255, 255, 0, 137, 138, 255, 255, 0, 138, 139, 255, 255,
    ];
    show(out, b"the last atom fits nowhere", &free, &pairs)?;
    show(out, b"the same on itself", &free, &free)
}
