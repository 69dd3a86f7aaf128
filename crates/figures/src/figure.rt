// What the three figures have in common: each is a number behind a type of its own.
ghost use Rattle.std.specs.Prelude.{◌≡◌, ℕ, refl};

use option_entry::{HighWater, InUse, Unusable};

pub trait Figure: Copy {
    ghost number_of: { Self → ℕ };

    ghost of_number: { ℕ → Self };

    fn of(n: u16) -> Self
        ensures { result ≡ of_number n };

    fn number(self) -> u16
        ensures { result ≡ number_of self };

    // Nothing is lost in the type.
    ghost number_kept: { (n : ℕ) → number_of (of_number n) ≡ n };

    ghost figure_kept: { (f : Self) → of_number (number_of f) ≡ f };
}

impl Figure for HighWater {
    ghost number_of = { λ f. f.0 };

    ghost of_number = { λ n. record { 0 = n } };

    ghost number_kept = { λ n. refl };

    ghost figure_kept = { λ f. refl };

    fn of(n: u16) -> HighWater {
        HighWater(n)
    }

    fn number(self) -> u16 {
        self.0
    }
}

impl Figure for InUse {
    ghost number_of = { λ f. f.0 };

    ghost of_number = { λ n. record { 0 = n } };

    ghost number_kept = { λ n. refl };

    ghost figure_kept = { λ f. refl };

    fn of(n: u16) -> InUse {
        InUse(n)
    }

    fn number(self) -> u16 {
        self.0
    }
}

impl Figure for Unusable {
    ghost number_of = { λ f. f.0 };

    ghost of_number = { λ n. record { 0 = n } };

    ghost number_kept = { λ n. refl };

    ghost figure_kept = { λ f. refl };

    fn of(n: u16) -> Unusable {
        Unusable(n)
    }

    fn number(self) -> u16 {
        self.0
    }
}
