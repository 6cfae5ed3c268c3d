//! Where a node stands.

ghost use Rattle.ps_expansion.specs.Levels.{down, inner, lowered, operand_at, passed};
ghost use Rattle.std.specs.Prelude.{◌≡◌};

/// Where a node of the kernel stands: how many levels are left from its own on, and whether it is in tail position.
#[derive(Clone, Copy, Debug, PartialEq, Eq)]
pub struct Level {
    /// How many nodes may stand one in another there.
    pub left: u64,
    /// Whether it is in tail position of a lambda (R5RS 3.5).
    pub tail: bool,
}

impl Level {
    /// That of a part that is in no tail position.
    pub fn down(self) -> Level
        ensures { result ≡ down self }
    {
        Level {
            left: self.left.saturating_sub(1),
            tail: false,
        }
    }

    /// That of a part to which tail position is passed on.
    pub fn passed(self) -> Level
        ensures { result ≡ passed self }
    {
        Level {
            left: self.left.saturating_sub(1),
            tail: self.tail,
        }
    }

    /// That of the body of a lambda.
    pub fn inner(self) -> Level
        ensures { result ≡ inner self }
    {
        Level {
            left: self.left.saturating_sub(1),
            tail: true,
        }
    }

    /// That of what stands so many nodes lower, of which each passes tail position on.
    pub fn lowered(self, count: usize) -> Level
        ensures { result ≡ lowered self count }
    {
        Level {
            left: self.left.saturating_sub(count as u64),
            tail: self.tail,
        }
    }

    /// That of an operand so many nodes lower.
    pub fn operand_at(self, count: usize) -> Level
        ensures { result ≡ operand_at self count }
    {
        Level {
            left: self.left.saturating_sub(count as u64),
            tail: false,
        }
    }
}
