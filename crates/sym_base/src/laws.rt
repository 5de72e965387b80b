//! Laws of the equality and the order of values and keys, by which groups are told apart.
ghost use Rattle.std.specs.Prelude.{◌≡◌, ◌↔◌, IsTrue};
ghost use Rattle.std.specs.declared.cmp.Ordering.TheVariants.{Equal};
ghost use Rattle.sym_base.specs.Order.{value_cmp};

use crate::values::value::{Key, Value};
use std::cmp::Ordering;

/// `==` answers true exactly when two values are equal.
pub fn values_are_told_apart(left: &Value, right: &Value) -> bool
    ensures { IsTrue result ↔ (left.now ≡ right.now) }
{
    left == right
}

/// `==` answers true exactly when two keys are equal.
pub fn keys_are_told_apart(left: &Key, right: &Key) -> bool
    ensures { IsTrue result ↔ (left.now ≡ right.now) }
{
    left == right
}

/// Values stand in the order that is defined, in which two tie exactly when they are equal.
pub fn values_are_in_order(left: &Value, right: &Value) -> Ordering
    ensures order { result ≡ value_cmp left.now right.now }
    ensures tie { (result ≡ Equal) ↔ (left.now ≡ right.now) }
{
    left.cmp(right)
}
