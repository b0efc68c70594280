// "The counts (h + 1)^n, for h from 1 to 4 and n from 0 to 8, stand as a fixed table of choice counts, four rows of
// nine."
ghost use Rattle.std.specs.Prelude.{◌≡◌, ◌≤◌};
ghost use Rattle.unification.specs.Choice.{count};
ghost use Rattle.lister.specs.Counts.{CountsFor};

const COUNTS: [[usize; 9]; 4] = [
    [1, 2, 4, 8, 16, 32, 64, 128, 256],
    [1, 3, 9, 27, 81, 243, 729, 2187, 6561],
    [1, 4, 16, 64, 256, 1024, 4096, 16384, 65536],
    [1, 5, 25, 125, 625, 3125, 15625, 78125, 390625],
];

// How many choices there are for n atoms and h head atoms.
pub fn choice_count(h: usize, n: usize) -> usize
    requires { (1 ≤ h) × (h ≤ 4) × (n ≤ 8) }
    ensures { result ≡ count h n }
{
    COUNTS[h - 1][n]
}

// The row for h head atoms: how many choices there are for each number of atoms. It is looked up once for a whole search.
pub fn choice_counts(h: usize) -> [usize; 9]
    requires { (1 ≤ h) × (h ≤ 4) }
    ensures { CountsFor h result }
{
    COUNTS[h - 1]
}
