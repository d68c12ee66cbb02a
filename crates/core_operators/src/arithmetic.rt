//! The operators on ints.

ghost use Rattle.std.specs.Prelude.{◌≡◌};
ghost use Rattle.core_state.specs.Arithmetic.{truth_of, truth, negated, not_true, flipped, sum_of, difference_of, product_of};
ghost use Rattle.core_state.specs.Arithmetic.{quotient, remainder, shifted_left, shifted_right, is_equal, is_not_equal};
ghost use Rattle.core_state.specs.Arithmetic.{is_less, is_at_most, both_bits, either_bits, differing_bits, shift_count, low_byte};

use ac_base::Trap;

fn int_of(truth: bool) -> i64
    ensures { result ≡ truth_of truth }
{
    if truth { 1 } else { 0 }
}

/// What is left of 0 when the number is taken away, in 64 bits.
pub fn negated(x: i64) -> i64
    ensures { result ≡ negated x }
{
    x.wrapping_neg()
}

/// 1 for 0, and else 0.
pub fn not_true(x: i64) -> i64
    ensures { result ≡ not_true x }
{
    int_of(x == 0)
}

/// The number with each bit turned.
pub fn flipped(x: i64) -> i64
    ensures { result ≡ flipped x }
{
    !x
}

/// 0 for 0, and else 1.
pub fn truth(x: i64) -> i64
    ensures { result ≡ truth x }
{
    int_of(x != 0)
}

/// The bits that both have.
pub fn both_bits(x: i64, y: i64) -> i64
    ensures { result ≡ both_bits x y }
{
    x & y
}

/// The bits that one of them has.
pub fn either_bits(x: i64, y: i64) -> i64
    ensures { result ≡ either_bits x y }
{
    x | y
}

/// The bits that just one of them has.
pub fn differing_bits(x: i64, y: i64) -> i64
    ensures { result ≡ differing_bits x y }
{
    x ^ y
}

/// 1 where they are equal, and else 0.
pub fn is_equal(x: i64, y: i64) -> i64
    ensures { result ≡ is_equal x y }
{
    int_of(x == y)
}

/// 0 where they are equal, and else 1.
pub fn is_not_equal(x: i64, y: i64) -> i64
    ensures { result ≡ is_not_equal x y }
{
    int_of(x != y)
}

/// 1 where the left one is less, and else 0.
pub fn is_less(x: i64, y: i64) -> i64
    ensures { result ≡ is_less x y }
{
    int_of(x < y)
}

/// 1 where the left one is at most the right one, and else 0.
pub fn is_at_most(x: i64, y: i64) -> i64
    ensures { result ≡ is_at_most x y }
{
    int_of(x <= y)
}

fn shift_count(y: i64) -> u32
    ensures { result ≡ shift_count y }
{
    (y.cast_unsigned() % 64) as u32
}

/// The bits of the left one, moved up by the right one modulo 64.
pub fn shifted_left(x: i64, y: i64) -> i64
    ensures { result ≡ shifted_left x y }
{
    x << shift_count(y)
}

/// The bits of the left one with its sign, moved down by the right one modulo 64.
pub fn shifted_right(x: i64, y: i64) -> i64
    ensures { result ≡ shifted_right x y }
{
    x >> shift_count(y)
}

/// The sum, in 64 bits.
pub fn sum(x: i64, y: i64) -> i64
    ensures { result ≡ sum_of x y }
{
    x.wrapping_add(y)
}

/// The left one less the right one, in 64 bits.
pub fn difference(x: i64, y: i64) -> i64
    ensures { result ≡ difference_of x y }
{
    x.wrapping_sub(y)
}

/// The product, in 64 bits.
pub fn product(x: i64, y: i64) -> i64
    ensures { result ≡ product_of x y }
{
    x.wrapping_mul(y)
}

/// The quotient toward 0, in 64 bits. `ZeroDivisor` exactly where the right one is 0.
pub fn quotient(x: i64, y: i64) -> Result<i64, Trap>
    ensures { result ≡ quotient x y }
{
    if y == 0 {
        return Err(Trap::ZeroDivisor);
    }
    Ok(x.wrapping_div(y))
}

/// What the quotient leaves; it has the sign of the left one. `ZeroDivisor` exactly where the
/// right one is 0.
pub fn remainder(x: i64, y: i64) -> Result<i64, Trap>
    ensures { result ≡ remainder x y }
{
    if y == 0 {
        return Err(Trap::ZeroDivisor);
    }
    Ok(x.wrapping_rem(y))
}

/// The low 8 bits.
pub fn low_byte(x: i64) -> u8
    ensures { result ≡ low_byte x }
{
    (x.cast_unsigned() % 256) as u8
}
