// Exact comparison of fractions of 64-bit numbers (document 01, "Draw": "Keys are compared exactly"). Their cross products
// do not fit 64 bits, so whole parts are compared first, and then the two remainders turned upside down, where less becomes greater.
#![tactic(auto)]

ghost use Rattle.std.specs.Prelude.{◌≡◌, ◌<◌, ◌/◌, ◌%◌};
ghost use Rattle.rules.specs.Draw.{fraction_below};

// num / den. With den = 0 the comparison is still that of the cross products.
#[derive(Clone, Copy, PartialEq, Eq)]
pub struct Fraction {
    pub num: u64,
    pub den: u64,
}

// The remainder, turned upside down.
fn turned(f: Fraction) -> Fraction
    requires { 0 < f.den }
    ensures { (result.num ≡ f.den) × (result.den ≡ f.num % f.den) }
{
    Fraction {
        num: f.den,
        den: f.num % f.den,
    }
}

// x < y. The two guards are "a remainder of 0 is the least": turned upside down it has the denominator 0 and is the greatest.
// That the two functions call each other is a form that document 01 names.
#[cycle(above_below)]
pub fn below(x: Fraction, y: Fraction) -> bool
    ensures { result ≡ fraction_below x.num x.den y.num y.den }
{
    if x.den == 0 {
        return false;
    }
    if y.den == 0 {
        return 0 < y.num;
    }
    let whole_x = x.num / x.den;
    let whole_y = y.num / y.den;
    if whole_x < whole_y {
        return true;
    }
    if whole_y < whole_x {
        return false;
    }
    above(turned(x), turned(y))
}

// v < u, likewise.
#[cycle(above_below)]
pub fn above(u: Fraction, v: Fraction) -> bool
    ensures { result ≡ fraction_below v.num v.den u.num u.den }
{
    if v.den == 0 {
        return false;
    }
    if u.den == 0 {
        return 0 < u.num;
    }
    let whole_u = u.num / u.den;
    let whole_v = v.num / v.den;
    if whole_v < whole_u {
        return true;
    }
    if whole_u < whole_v {
        return false;
    }
    below(turned(u), turned(v))
}

// a < b for a caller that knows the whole parts, p of a and q of b: a pass over many fractions divides once for each, and not again
// for the one that they are held against.
pub fn below_by_parts(a: Fraction, p: u64, b: Fraction, q: u64) -> bool
    requires { (0 < a.den) × (0 < b.den) × (p ≡ a.num / a.den) × (q ≡ b.num / b.den) }
    ensures { result ≡ fraction_below a.num a.den b.num b.den }
{
    if p < q {
        return true;
    }
    if q < p {
        return false;
    }
    let rest_a = a.num - p * a.den;
    let rest_b = b.num - q * b.den;
    above(
        Fraction {
            num: a.den,
            den: rest_a,
        },
        Fraction {
            num: b.den,
            den: rest_b,
        },
    )
}
