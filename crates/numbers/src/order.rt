// The larger and the smaller of two floats. Of two zeros std's max and min may give either; these give the first.
ghost use Rattle.std.specs.Prelude.{◌≡◌};
ghost use Rattle.floats.specs.Order.{larger as larger_of, smaller as smaller_of};

pub fn larger(a: f32, b: f32) -> f32
    ensures { result ≡ larger_of a b }
{
    if a < b { b } else { a }
}

pub fn smaller(a: f32, b: f32) -> f32
    ensures { result ≡ smaller_of a b }
{
    if b < a { b } else { a }
}
