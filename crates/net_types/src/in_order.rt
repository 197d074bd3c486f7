//! Lists in order.

ghost use Rattle.std.specs.Prelude.{◌≡◌, true};
ghost use Rattle.std.specs.Ordering.{eq_by_cmp};
ghost use Rattle.net_types.specs.Maps.{ordered};

/// The same values, ascending, each once. Two that compare as equal have to be the same.
pub fn ascending<T: Ord + Drop>(mut values: Vec<T>) -> Vec<T>
    requires { (x y : T) → eq_by_cmp T.cmp x y ≡ true → x ≡ y }
    ensures { result.items ≡ ordered T.cmp values.items }
{
    values.sort_unstable();
    values.dedup();
    values
}
