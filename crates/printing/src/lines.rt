// Atoms, members and lines put into a text.
ghost use Rattle.std.specs.Prelude.{◌+◌, ◌*◌, ◌≤◌, ◌<◌, T, length};
ghost use Rattle.covering.specs.Lists.{gather};
ghost use Rattle.covering.specs.Record.{new_places, stored, args_at, atom_at, atoms_at, is_atom, are_atoms};
ghost use Rattle.covering.specs.Buffer.{AtomsIn};
ghost use Rattle.exploration.specs.Union.{members_from};
ghost use Rattle.exploration.specs.Standing.{Counted, WrittenAt};
ghost use Rattle.printing.specs.Printed.{ascii, marked, separated, term_text, atom_text, member_line, line};
ghost use Rattle.printing.specs.Printable.{always_bytes};
ghost use Rattle.printing.specs.Text.{HasRoom, Adds};

use super::put::Text;

impl<'a> Text<'a> {
    // Puts a line of two numbers, each after its words.
    #[tactic(auto, using(crate::proofs::Texts::line_length))]
    pub fn put_line(&mut self, first: &[u8], m: usize, second: &[u8], n: usize)
        requires { HasRoom (line first.now m second.now n) self.old }
        ensures { Adds (line first.now m second.now n) self.old self.new }
    {
        self.put(first);
        self.put_decimal(m);
        self.put(second);
        self.put_decimal(n);
        self.put(b"\n");
    }

    // Puts the terms in the next w places from i on, those before the first 255, with a comma before each.
    fn put_terms(&mut self, member: &[u8], i: usize, w: usize)
        requires { (i + w ≤ length member.now)
            × HasRoom (marked (ascii ",") term_text (args_at member.now i w)) self.old }
        ensures { Adds (marked (ascii ",") term_text (args_at member.now i w)) self.old self.new }
    {
        for k in 0..w {
            let b = member[i + k];
            if b == 255 {
                return;
            }
            self.put(b",");
            self.put_term(b);
        }
    }

    // Puts the atom at i.
    #[tactic(auto, using(crate::proofs::Texts::atom_length))]
    fn put_atom(&mut self, member: &[u8], i: usize)
        requires { (i + 7 ≤ length member.now)
            × T (is_atom stored member.now i)
            × HasRoom (atom_text (atom_at stored member.now i)) self.old }
        ensures { Adds (atom_text (atom_at stored member.now i)) self.old self.new }
    {
        self.put_relation(member[i]);
        self.put(b"(");
        self.put_term(member[i + 1]);
        self.put_terms(member, i + 2, 5);
        self.put(b")");
    }

    // Puts n atoms from i on, with a space before each.
    fn put_atoms(&mut self, member: &[u8], i: usize, n: usize)
        requires { (i + n * 7 ≤ length member.now)
            × T (are_atoms stored member.now i n)
            × HasRoom (marked (ascii " ") atom_text (atoms_at stored member.now i n)) self.old }
        ensures { Adds (marked (ascii " ") atom_text (atoms_at stored member.now i n)) self.old self.new }
    {
        for k in 0..n {
            self.put(b" ");
            self.put_atom(member, i + 7 * k);
        }
    }

    // Puts n atoms from i on, with a space between two.
    #[tactic(auto, using(crate::proofs::Texts::all_length, covering::proofs::Places::sound_more))]
    fn put_all(&mut self, output: &[u8], i: usize, n: usize)
        requires { AtomsIn stored output.now i n
            × HasRoom (separated (ascii " ") atom_text (atoms_at stored output.now i n)) self.old }
        ensures { Adds (separated (ascii " ") atom_text (atoms_at stored output.now i n)) self.old self.new }
    {
        if n == 0 {
            return;
        }
        self.put_atom(output, i);
        self.put_atoms(output, i + 7, n - 1);
    }

    // Puts what stands for the atoms of a member without any, after its answer record if it has one.
    #[tactic(auto, using(crate::proofs::Texts::always_alone, crate::proofs::Texts::always_after))]
    fn put_always(&mut self, count: u8, answers: u8)
        requires { HasRoom (always_bytes count answers) self.old }
        ensures { Adds (always_bytes count answers) self.old self.new }
    {
        if count != 0 {
            return;
        }
        if answers == 0 {
            return self.put(b"always");
        }
        self.put(b" always");
    }

    // Puts a member's line: its answer records from i on and the atoms that it counts.
    #[tactic(auto, using(crate::proofs::Texts::member_length))]
    fn put_member(&mut self, output: &[u8], i: usize, count: u8, answers: u8)
        requires { AtomsIn stored output.now i (answers + count)
            × Counted answers count (atoms_at stored output.now i (answers + count))
            × (answers + count < 256)
            × HasRoom (member_line (atoms_at stored output.now i (answers + count))) self.old }
        ensures { Adds (member_line (atoms_at stored output.now i (answers + count))) self.old self.new }
    {
        self.put_all(output, i, usize::from(answers + count));
        self.put_always(count, answers);
        self.put(b"\n");
    }

    // Puts the lines of n members, which stand from i on, each with so many answer records before the atoms that it
    // counts.
    pub fn put_members(&mut self, output: &[u8], i: usize, n: usize, answers: u8)
        requires { WrittenAt new_places answers output.now i n
            × HasRoom (gather member_line (members_from new_places answers output.now i n)) self.old }
        ensures { Adds
            (gather member_line (members_from new_places answers output.now i n))
            self.old
            self.new }
    {
        let mut at = i;
        for done in 0..n {
            let count = output[at];
            self.put_member(output, at + 1, count, answers);
            at += records::width(answers + count);
        }
    }
}
