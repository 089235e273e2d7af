ghost use Rattle.std.specs.Prelude.{◌≡◌, ◌<◌, ◌++◌, ◌∷◌, [], All, IfSome};
ghost use Rattle.tap_name.specs.Name.{IsName};
ghost use Rattle.tap_salt.specs.Salt.{if_salted, is_salted, name_of_bytes, salt_of, salts_of};

use sha1::Sha1;
use tap_name::{Name, Settings, text_of_digit};

/// The name whose 40 digits are the SHA-1 digest of bytes, two for each byte of the digest: its high half, then its low half.
/// `None` exactly if the base isn't 16 or names don't have 40 digits. It takes no memory.
///
/// Rule: docs/PROTOCOL.md, "Salted names".
pub fn name_of(settings: &Settings, bytes: &[u8]) -> Option<Name>
    ensures value { result ≡ if_salted settings.now (name_of_bytes bytes.now) }
    ensures valid { IfSome result (IsName settings.now) }
{
    if is_salted(settings) {
        Some(Name::of(&digits_of(bytes)))
    } else {
        None
    }
}

/// The salt of an object with this number: the name of the object's text, a byte for each digit, and then of one byte, the number.
/// `None` exactly if the base isn't 16 or names don't have 40 digits. It takes no memory.
///
/// Rule: docs/PROTOCOL.md, "Salted names".
pub fn salt(settings: &Settings, object: &Name, number: u8) -> Option<Name>
    ensures value { result ≡ if_salted settings.now (salt_of object.now number) }
    ensures valid { IfSome result (IsName settings.now) }
{
    let name = object.digits();
    let digits = name.as_slice();
    let mut text = [0; 41];
    for (at, digit) in digits.iter().enumerate() {
        text[at] = text_of_digit(*digit);
    }
    text[digits.len()] = number;
    name_of(settings, &text[..digits.len() + 1])
}

/// The four salts of an object, in their order. `None` exactly if the base isn't 16 or names don't have 40 digits. It takes no
/// memory.
///
/// Rule: docs/PROTOCOL.md, "Salted names".
pub fn salts_of(settings: &Settings, object: &Name) -> Option<[Name; 4]>
    ensures value { result ≡ if_salted settings.now (salts_of object.now) }
    ensures valid { IfSome result (All (IsName settings.now)) }
{
    let first = salt(settings, object, 1)?;
    let second = salt(settings, object, 2)?;
    let third = salt(settings, object, 3)?;
    let fourth = salt(settings, object, 4)?;
    Some([first, second, third, fourth])
}

// Whether names are as long as a digest.
fn is_salted(settings: &Settings) -> bool
    ensures { result ≡ is_salted settings.now }
{
    settings.base() == 16 && settings.digits() == 40
}

// The halves of the digest of bytes.
fn digits_of(bytes: &[u8]) -> [u8; 40]
    ensures value { result ≡ name_of_bytes bytes.now }
    ensures digits { All (λ d. d < 16) result }
{
    let digest = Sha1::digest(bytes);
    let mut digits = [0; 40];
    for (at, byte) in digest.iter().enumerate() {
        digits[2 * at] = byte / 16;
        digits[2 * at + 1] = byte % 16;
    }
    digits
}
