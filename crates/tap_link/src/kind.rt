ghost use Rattle.std.specs.Prelude.{◌≡◌, Some};
ghost use Rattle.tap_link.specs.LinkSet.{is_pinned, is_settled};

/// What a link is.
///
/// Rule: docs/PROTOCOL.md, "Links".
#[derive(Clone, Copy, Debug, PartialEq, Eq)]
pub enum Kind {
    /// A link that stays until its target ends it.
    Pin,
    /// A link to a node that has joined and stays.
    Settled,
    /// A link to a node that has said that it will leave.
    Leaving,
}

impl Kind {
    /// Whether a link of this kind is a pin.
    pub fn is_pin(self) -> bool
        ensures { result ≡ is_pinned (Some self) }
    {
        match self {
            Kind::Pin => true,
            Kind::Settled | Kind::Leaving => false,
        }
    }

    /// Whether a link of this kind is settled and not leaving.
    pub fn is_settled(self) -> bool
        ensures { result ≡ is_settled (Some self) }
    {
        match self {
            Kind::Settled => true,
            Kind::Pin | Kind::Leaving => false,
        }
    }
}

/// What became of a link at a release by its target.
///
/// Rule: docs/PROTOCOL.md, "Links".
#[derive(Clone, Copy, Debug, PartialEq, Eq)]
pub enum Released {
    /// The pin is now a settled link.
    Settled,
    /// The pin is gone, since the set has all the settled links that it may have.
    Dropped,
    /// The sender wasn't pinned, and nothing changed.
    Nothing,
}
