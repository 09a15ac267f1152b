// What every crate rests on: the limits on numbers (docs/RULES.md, 'Limits'), the refusals, and local arrays.
#![tactic(auto)]

ghost use Rattle.std.specs.Prelude.{◌≡◌, replicate};
ghost use Rattle.base.specs.Refusals.{refusal_number};

// Solute atoms, and waters.
pub const MAX_ATOMS: usize = 65536;

pub const MAX_INDICES: usize = 256;

pub const MAX_COPIES: usize = 4096;

pub const MAX_PICKS: usize = 65536;

// Why a call refuses, by its number in docs/RULES.md ('Refusals'); the header has the same names.
#[derive(Clone, Copy, PartialEq, Eq, Debug)]
pub enum Refused {
    Ragged = 1,
    Long = 2,
    Bound = 3,
    Coordinate = 4,
    Copies = 5,
    Picks = 6,
    Short = 7,
    Lists = 8,
    Table = 9,
    NoRow = 10,
    RowAgain = 11,
    RowLeft = 12,
    Nodes = 13,
    Block = 14,
    Cell = 15,
    Reach = 16,
    OtherCutoff = 17,
}

impl Refused {
    pub fn number(self) -> u32
        ensures { result ≡ refusal_number self }
    {
        self as u32
    }
}

// N equal entries: a local array of its caller. A function of its own, so that the caller's proof does not count the array out, and the compiler
// puts the array where the caller has it.
pub fn room<T: Copy, const N: usize>(x: T) -> [T; N]
    ensures { result ≡ replicate N x }
{
    [x; N]
}
