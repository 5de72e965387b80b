//! The quotient that rounds down.
ghost use Rattle.std.specs.Prelude.{◌≤◌, ◌↔◌, ℤ, ◌*ℤ◌, ◌≤ℤ◌, ◌<ℤ◌, pos, unsigned_abs};
ghost use Rattle.sym_int.specs.Bounds.{dividend_max};

/// The greatest x for which `d * x` is at most `n`. Most lines rise or fall by 1, and those need no
/// division.
pub(crate) fn floor_quotient(n: i128, d: i128) -> i128
    requires n_in { unsigned_abs n ≤ dividend_max }
    requires d_in { pos 0 <ℤ d }
    ensures exact { (x : ℤ) → (x ≤ℤ result) ↔ ((d *ℤ x) ≤ℤ n) }
    ensures bound { unsigned_abs result ≤ dividend_max }
{
    if d == 1 {
        return n;
    }
    n.div_euclid(d)
}
