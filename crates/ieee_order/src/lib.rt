// What the encoder needs of binary64 beyond Rattle's operators: the magnitude, the larger and the smaller of two.
#![tactic(auto)]

ghost use Rattle.std.specs.Prelude.{◌≡◌};
ghost use Rattle.ieee_order.specs.Order.{abs_of, max_of, min_of};

// The magnitude. Both zeros give +0.0.
// Kept: std's `abs`; `encoder_scalefactors` and `text_line` call it for its contract, which is `abs_of`, the definition of their own clauses.
pub fn abs(x: f64) -> f64
    ensures { result ≡ abs_of x }
{
    x.abs()
}

// The larger of two, as `f64::max`: a NaN beside a number yields the number, and of two that compare equal the first is taken.
// Kept: here and below: of two that compare equal std's `max` and `min` promise only one of them, so that which zero comes out could not be proved.
pub fn max(a: f64, b: f64) -> f64
    ensures { result ≡ max_of a b }
{
    if a < b || a.is_nan() { b } else { a }
}

// The smaller of two, as `f64::min`; of two that compare equal the first.
// Kept: as for `max`: of two zeros std's `min` does not promise the first, which this contract does.
pub fn min(a: f64, b: f64) -> f64
    ensures { result ≡ min_of a b }
{
    if b < a || a.is_nan() { b } else { a }
}
