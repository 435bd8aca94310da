// Comparing labels.

ghost use Rattle.std.specs.Prelude.{◌≡◌};
ghost use Rattle.label_order.specs.Order.{at_or_below};

// Whether label x is at or below label y, for any two words.
pub fn compare_labels(x: u64, y: u64) -> bool
    ensures { result ≡ at_or_below x y }
{
    label_order::at_or_below(x, y)
}
