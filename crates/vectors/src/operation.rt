// The operations under test, each from bits to bits.
ghost use Rattle.std.specs.Prelude.{◌≤◌};

#[derive(Clone, Copy)]
pub(crate) enum Operation {
    Sqrt32,
    Sqrt64,
    Floor32,
    Round32,
    Widen,
    Narrow,
}

impl Operation {
    // How many hexadecimal digits the operation's argument has.
    pub(crate) fn input_digits(self) -> usize
        ensures { result ≤ 16 }
    {
        match self {
            Operation::Sqrt64 | Operation::Narrow => 16,
            _ => 8,
        }
    }

    // How many its result has.
    pub(crate) fn output_digits(self) -> usize
        ensures { result ≤ 16 }
    {
        match self {
            Operation::Sqrt64 | Operation::Widen => 16,
            _ => 8,
        }
    }

    // What the crate under test answers. Of an argument of eight digits nothing is lost.
    pub(crate) fn answer(self, input: u64) -> u64 {
        match self {
            Operation::Sqrt32 => roots::sqrt_bits::<f32>(low(input)) as u64,
            Operation::Sqrt64 => roots::sqrt_bits::<f64>(input),
            Operation::Floor32 => numbers::whole::floor_bits32(low(input)) as u64,
            Operation::Round32 => numbers::whole::round_bits32(low(input)) as u64,
            Operation::Widen => numbers::convert::widen_bits(low(input)),
            Operation::Narrow => numbers::convert::narrow_bits(input) as u64,
        }
    }
}

// The lower half of x.
fn low(x: u64) -> u32 {
    (x % 0x1_0000_0000) as u32
}
