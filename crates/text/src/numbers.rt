// What may be printed as a number.
ghost use Rattle.std.specs.Prelude.{◌≡◌, ℕ, ◌≤◌, length};
ghost use Rattle.text.specs.Printed.{number};

// An unsigned number, and how many bytes it takes at most with the space before it.
pub trait Number {
    ghost value: { Self → ℕ };

    ghost most: { ℕ };

    fn widened(self) -> u64
        ensures value { result ≡ value self }
        ensures short { length (number result) ≤ most };
}

impl Number for u8 {
    ghost value = { λ n. n };

    ghost most = { 4 };

    fn widened(self) -> u64 {
        self as u64
    }
}

impl Number for u16 {
    ghost value = { λ n. n };

    ghost most = { 6 };

    fn widened(self) -> u64 {
        self as u64
    }
}

impl Number for u32 {
    ghost value = { λ n. n };

    ghost most = { 11 };

    fn widened(self) -> u64 {
        self as u64
    }
}

impl Number for u64 {
    ghost value = { λ n. n };

    ghost most = { 21 };

    fn widened(self) -> u64 {
        self
    }
}
