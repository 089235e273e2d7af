ghost use Rattle.std.specs.Prelude.{Some};
ghost use Rattle.std.specs.Fmt.{styled_text};
ghost use Rattle.tap_name.specs.Name.{text_of_name};

use crate::name::{Name, NameFault, text_of_digit};
use std::error::Error;
use std::{fmt, str};

// A name is printed as it is read: a byte for each digit.
impl fmt::Display for Name {
    ghost output = { λ name. Some (text_of_name name) };

    ghost styled_output = { λ name spec. Some (styled_text spec (text_of_name name)) };

    fn fmt<W: fmt::Write>(&self, f: &mut fmt::Formatter<W>) -> fmt::Result {
        let name = self.digits();
        let digits = name.as_slice();
        let mut text = [0; 40];
        for (at, digit) in digits.iter().enumerate() {
            text[at] = text_of_digit(*digit);
        }
        f.pad(str::from_utf8(&text[..digits.len()]).unwrap())
    }
}

impl fmt::Display for NameFault {
    fn fmt<W: fmt::Write>(&self, f: &mut fmt::Formatter<W>) -> fmt::Result {
        match self {
            NameFault::BadLength(len) => write!(f, "bad length {len}"),
            NameFault::BadDigit(at) => write!(f, "bad digit {at}"),
        }
    }
}

impl Error for NameFault {}
