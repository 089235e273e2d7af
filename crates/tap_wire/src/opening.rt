use crate::kind::Kind;
use tap_name::Name;

// What a frame's head and its two names say.
#[derive(Clone, Copy)]
pub(crate) struct Opening {
    pub(crate) kind: Kind,
    pub(crate) sender: Name,
    pub(crate) receiver: Name,
}
