//! Laws of the definitions, each the contract of a function with an empty body: what a reader may rely on without reading
//! how the definitions are written. Nothing here runs.
ghost use Rattle.std.specs.Prelude.{◌≡◌, ◌≢◌, ◌↔◌, ℕ, ◌*◌, ◌+◌, ◌-◌, ◌%◌, ◌^◌, ◌<◌, ◌≤◌, min, max, ℤ, pos, ◌+ℤ◌, ◌*ℤ◌, neg_ℤ, ◌<ℤ◌, ◌≤ℤ◌, List, [], ◌∷◌, IsTrue, Some, IfSome, FitsSigned, unsigned_abs, int_div, int_rem, slice_index};
ghost use Rattle.std.specs.Int.{Width, w32, w64, int_div_euclid, int_bit_and, int_bit_or, int_bit_xor, cast_unsigned, bit_at};
ghost use Rattle.std.specs.Fmt.{decimal, signed_decimal};
ghost use mir.Val.{bits};
ghost use Rattle.wy_value.specs.Number.{wrapped, wrapped_char, distance};
ghost use Rattle.wy_value.specs.Operator.{comparison, unary_of, binary_of};
ghost use Rattle.wy_value.specs.Conversion.{converted};
ghost use Rattle.wy_value.specs.Value.{IsInRange};
ghost use Rattle.wy_value.specs.Text.{difference};
ghost use Rattle.wy_value.specs.Numeral.{int_of};

use crate::value::Value;
use wy_kernel::operator::{BinOp, Primitive, UnOp};

/// The number that `wrapped` gives is the one in the type's range that differs from `z` by a multiple of 2 ^ n, for n bits
/// (JLS 4.2.2, 5.1.3). So a number in the range stays.
pub fn wrapped_is_in_range_and_congruent()
    ensures in_range { (w : Width) (z : ℤ) → FitsSigned w (wrapped w z) }
    ensures congruent { (w : Width) (z : ℤ) → (k : ℤ) × (wrapped w z ≡ z +ℤ k *ℤ pos (2 ^ bits w)) }
    ensures unchanged { (w : Width) (z : ℤ) → FitsSigned w z → wrapped w z ≡ z }
    ensures char_in_range { (z : ℤ) → wrapped_char z < 2 ^ 16 }
    ensures char_congruent { (z : ℤ) → (k : ℤ) × (pos (wrapped_char z) ≡ z +ℤ k *ℤ pos (2 ^ 16)) }
    ensures char_unchanged { (n : ℕ) → n < 2 ^ 16 → wrapped_char (pos n) ≡ n }
{}

/// Operations on values whose numbers are in the range of their types give such values (JLS 4.2.2).
pub fn results_are_in_range()
    ensures unary { (op : UnOp) (v : Value) → IsInRange v → IsInRange (unary_of op v) }
    ensures binary { (op : BinOp) (a b : Value) → IsInRange a → IsInRange b
        → IfSome (binary_of op a b) IsInRange }
    ensures converted { (to : Primitive) (v : Value) → IsInRange v → IsInRange (converted to v) }
{}

/// `(a / d) * d + a % d` is `a`, and the remainder is smaller than the divisor and has the sign of the dividend (JLS 15.17.2, 15.17.3).
pub fn quotient_and_remainder_make_the_dividend()
    ensures dividend { (a d : ℤ) → int_div a d *ℤ d +ℤ int_rem a d ≡ a }
    ensures smaller { (a d : ℤ) → d ≢ pos 0 → unsigned_abs (int_rem a d) < unsigned_abs d }
    ensures not_negative { (a d : ℤ) → pos 0 ≤ℤ a → pos 0 ≤ℤ int_rem a d }
    ensures not_positive { (a d : ℤ) → a ≤ℤ pos 0 → int_rem a d ≤ℤ pos 0 }
{}

/// A distance is what the mask 0x1f, or 0x3f for long, leaves of its operand (JLS 15.19).
pub fn distance_is_masked()
    ensures int { (z : ℤ) → FitsSigned w64 z → int_bit_and w64 z (pos 0x1f) ≡ pos (distance w32 z) }
    ensures long { (z : ℤ) → FitsSigned w64 z
        → int_bit_and w64 z (pos 0x3f) ≡ pos (distance w64 z) }
{}

/// `>>` is the quotient by 2 ^ d rounded down (JLS 15.19).
pub fn shift_right_rounds_down()
    ensures below { (x : ℤ) (d : ℕ) → (int_div_euclid x (pos (2 ^ d)) *ℤ pos (2 ^ d)) ≤ℤ x }
    ensures above { (x : ℤ) (d : ℕ)
        → x <ℤ ((int_div_euclid x (pos (2 ^ d)) +ℤ pos 1) *ℤ pos (2 ^ d)) }
{}

/// Comparisons are those of whole numbers (JLS 15.20.1, 15.21.1).
pub fn comparison_is_that_of_whole_numbers()
    ensures less { (x y : ℤ) → IsTrue (comparison BinOp.Lt x y) ↔ (x <ℤ y) }
    ensures greater { (x y : ℤ) → IsTrue (comparison BinOp.Gt x y) ↔ (y <ℤ x) }
    ensures at_most { (x y : ℤ) → IsTrue (comparison BinOp.Le x y) ↔ (x ≤ℤ y) }
    ensures at_least { (x y : ℤ) → IsTrue (comparison BinOp.Ge x y) ↔ (y ≤ℤ x) }
    ensures equal { (x y : ℤ) → IsTrue (comparison BinOp.Eq x y) ↔ (x ≡ y) }
    ensures unequal { (x y : ℤ) → IsTrue (comparison BinOp.Ne x y) ↔ (x ≢ y) }
{}

/// `&`, `|` and `^` go bit by bit (JLS 15.22.1): bit k of the result is the lesser, the greater or the sum without carry of the operands' bits.
pub fn bitwise_operators_go_bit_by_bit()
    ensures and { (w : Width) (x y : ℤ) (k : ℕ) → FitsSigned w x → FitsSigned w y
        → bit_at (cast_unsigned w (int_bit_and w x y)) k ≡ min (bit_at (cast_unsigned w x) k)
        (bit_at (cast_unsigned w y) k) }
    ensures or { (w : Width) (x y : ℤ) (k : ℕ) → FitsSigned w x → FitsSigned w y
        → bit_at (cast_unsigned w (int_bit_or w x y)) k ≡ max (bit_at (cast_unsigned w x) k)
        (bit_at (cast_unsigned w y) k) }
    ensures xor { (w : Width) (x y : ℤ) (k : ℕ) → FitsSigned w x → FitsSigned w y
        → bit_at (cast_unsigned w (int_bit_xor w x y)) k
        ≡ (bit_at (cast_unsigned w x) k + bit_at (cast_unsigned w y) k) % 2 }
{}

/// Texts differ by 0 exactly where they have the same units, and the order of two texts is the reverse of that of the two the other way round.
pub fn difference_orders_texts()
    ensures zero { (a b : List ℕ) → (difference a b ≡ pos 0) ↔ (a ≡ b) }
    ensures reversed { (a b : List ℕ) → difference b a ≡ neg_ℤ (difference a b) }
{}

/// The text of a number spells that number and has no leading zero, so `parse_int` reads what `digits` wrote.
pub fn decimal_text_spells_its_number()
    ensures reads_back { (z : ℤ) → FitsSigned w32 z → int_of (signed_decimal z) ≡ Some z }
    ensures zero { decimal 0 ≡ 48 ∷ [] }
    ensures no_leading_zero { (n : ℕ) → 0 < n → n < 2 ^ 64 → slice_index (decimal n) 0 ≢ 48 }
{}
