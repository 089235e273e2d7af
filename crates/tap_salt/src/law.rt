ghost use Rattle.tap_salt.specs.SaltLaws.{SaltsAreNames, SaltsHaveRoots};

/// If names are as long as a digest, the four salts of an object are names. Over any names, of which there is one at least, each of
/// the four has a root, which is one of these.
///
/// It does nothing: its contract is the law.
///
/// Rule: docs/PROTOCOL.md, "Salted names".
pub fn salts_law()
    ensures names { SaltsAreNames }
    ensures roots { SaltsHaveRoots }
{}
