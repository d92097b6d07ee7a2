//! The first of a list of numbers, and the first one that differs from it.
ghost use Rattle.std.specs.Prelude.{◌≡◌, ◌∷◌, ◌++◌, [], ℕ, List};
ghost use Rattle.rtcm_inspect.specs.FirstTwo.{first_of, first_two};

/// The first of a list of numbers, and the first one that differs from it.
#[derive(Clone, Copy)]
pub enum FirstTwo {
    /// There is no number.
    Unknown,
    /// All are this one.
    One(u16),
    /// The first one, and the first other one.
    Several(u16, u16),
}

impl FirstTwo {
    /// Adds one more number.
    pub fn add(&mut self, number: u16)
        ensures { (ns : List ℕ) → self.old ≡ first_two ns → self.new ≡ first_two (ns ++ number ∷ []) }
    {
        match *self {
            FirstTwo::Unknown => *self = FirstTwo::One(number),
            FirstTwo::One(first) if first != number => *self = FirstTwo::Several(first, number),
            FirstTwo::One(_) => {}
            FirstTwo::Several(_, _) => {}
        }
    }

    /// Returns the first number.
    pub fn first(self) -> Option<u16>
        ensures { result ≡ first_of self }
    {
        match self {
            FirstTwo::Unknown => None,
            FirstTwo::One(first) | FirstTwo::Several(first, _) => Some(first),
        }
    }
}
