ghost use Rattle.std.specs.Prelude.{◌≡◌, ◌<◌, bytes_eq, length};
ghost use Rattle.tap_name.specs.Name.{text_of_name};

use tap_name::{Name, USUAL_DIGITS, print_digits};
use tap_scenario::is_same;

// So many digits has a name at most.
const MOST_DIGITS: usize = 40;

// Whether a word is the text of a name that has as many digits as usual: all are printed at once.
#[inline(always)]
fn is_usual_text(word: &[u8], name: &Name) -> bool
    requires { length name.now ≡ 8 }
    ensures { result ≡ bytes_eq word.now (text_of_name name.now) }
{
    let mut digits = [0; USUAL_DIGITS];
    name.put_usual_digits(&mut digits);
    let mut text = [0; USUAL_DIGITS];
    print_digits(&digits, &mut text);
    is_same(word, &text)
}

// Whether a word is the text of a name of any length.
fn is_any_text(word: &[u8], name: &Name) -> bool
    ensures { result ≡ bytes_eq word.now (text_of_name name.now) }
{
    let digits = name.digits();
    let digits = digits.as_slice();
    let mut text = [0; MOST_DIGITS];
    print_digits(digits, &mut text[..digits.len()]);
    is_same(word, &text[..digits.len()])
}

// Whether a word is the text of a name.
pub(crate) fn is_text(word: &[u8], name: &Name) -> bool
    ensures { result ≡ bytes_eq word.now (text_of_name name.now) }
{
    if name.len() == USUAL_DIGITS {
        is_usual_text(word, name)
    } else {
        is_any_text(word, name)
    }
}
