// The order of labels.

#![tactic(auto)]

ghost use Rattle.std.specs.Prelude.{◌≡◌};
ghost use Rattle.label_order.specs.Order.{at_or_below};

// Whether label `x` is at or below label `y`.
pub fn at_or_below(x: u64, y: u64) -> bool
    ensures { result ≡ at_or_below x y }
{
    let views = words::high_half(y);
    if views == 0 {
        return true;
    }
    if words::low_half(x) != words::low_half(y) {
        return false;
    }
    words::includes(words::high_half(x), views)
}
