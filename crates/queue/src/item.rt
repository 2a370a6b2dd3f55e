// What a queue may hold.
ghost use Rattle.std.specs.Prelude.{◌≡◌, Bool, true};

// An item is copied, and one is the zero item, its default, which stands in every place past a
// queue's length. Laws: the test finds the zero item and nothing else.
pub trait Item: Copy + Default {
    ghost zero_item: { Self };

    ghost is_zero: { Self → Bool };

    fn is_zero(self) -> bool
        ensures { result ≡ is_zero self };

    ghost zero_passes: { is_zero zero_item ≡ true };

    ghost zero_alone: { (x : Self) → is_zero x ≡ true → x ≡ zero_item };

    ghost default_is_zero: { (x : Self) → Self.is_default x → x ≡ zero_item };
}
