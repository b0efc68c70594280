// Copies a book to the old form: reads a book of at most 65,536 bytes from standard input, ignores what follows, and
// writes the copy, or a line with the refusal.
#![tactic(auto)]

use copier::copy_to_old;
use std::io;

fn main(rt: HostRuntime) -> io::Result<()> {
    copy_to_old(&mut rt.stdin(), &mut rt.stdout())
}
