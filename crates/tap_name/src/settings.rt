ghost use Rattle.std.specs.Prelude.{◌≡◌};
ghost use Rattle.std.specs.Option.{SomeIff};
ghost use Rattle.tap_name.specs.Settings.{SettingsValue, AreWithinLimits};

use std::marker::Model;

/// What all nodes of one overlay have in common.
///
/// The base of the digits is from 2 to 16, a name has 1 to 40 digits, and a slot of a table holds at most
/// `width` links that are settled and not leaving, 1 to 4. Pins and leaving links aren't counted. Contracts see the
/// record of the three numbers.
///
/// Rule: docs/PROTOCOL.md, "Names".
#[derive(Clone, Copy, Debug, PartialEq, Eq)]
pub struct Settings {
    base: u8,
    digits: u8,
    width: u8,
}

impl Model for Settings {
    ghost use Rattle.tap_name.specs.Settings.{SettingsValue, AreWithinLimits};

    ghost Value = { SettingsValue };

    ghost view = { λ s. record { base = s.base; digits = s.digits; width = s.width } };

    ghost invariant = { λ s. AreWithinLimits (record { base = s.base; digits = s.digits; width = s.width }) };

    ghost inverse = { λ s. record { base = s.base; digits = s.digits; width = s.width } };
}

impl Settings {
    /// The settings of these numbers, `None` exactly if one is outside its limits.
    pub fn new(base: u8, digits: u8, width: u8) -> Option<Settings>
        ensures { let given : SettingsValue = record { base = base; digits = digits; width = width } in SomeIff result (AreWithinLimits given) given }
    {
        if base < 2 || base > 16 || digits < 1 || digits > 40 || width < 1 || width > 4 {
            return None;
        }
        Some(Settings {
            base,
            digits,
            width,
        })
    }

    /// The base of the digits, 2 to 16.
    pub fn base(&self) -> u8
        ensures value { result ≡ self.now.base }
        ensures valid { AreWithinLimits self.now }
    {
        self.base
    }

    /// The number of digits of a name, 1 to 40.
    pub fn digits(&self) -> u8
        ensures value { result ≡ self.now.digits }
        ensures valid { AreWithinLimits self.now }
    {
        self.digits
    }

    /// How many settled links that aren't leaving a slot holds at most, 1 to 4.
    pub fn width(&self) -> u8
        ensures value { result ≡ self.now.width }
        ensures valid { AreWithinLimits self.now }
    {
        self.width
    }
}
