use tap_name::Name;

/// A notice of a leaving node for one of its holders.
///
/// Rule: docs/PROTOCOL.md, "Departure".
#[derive(Clone, Copy, Debug, PartialEq, Eq)]
pub struct Notice {
    /// The holder.
    pub to: Name,
    /// A node that fits the leaving node's slot at the holder, `None` if the leaving node has no
    /// settled link to one.
    pub replacement: Option<Name>,
}
