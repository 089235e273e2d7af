ghost use Rattle.std.specs.Prelude.{◌≡◌, ◌+◌, ◌<◌, ◌≤◌, length, map, IfOk, OnOk};
ghost use Rattle.std.specs.List.{range_with_len};
ghost use Rattle.tap_make.specs.Draws.{further};
ghost use Rattle.tap_make.specs.Made.{made_settings};
ghost use Rattle.tap_make.specs.MadeNames.{HasMadeNames, drawn_member, drawn_object, hexadecimal_digit, marked_name};
ghost use Rattle.tap_make.specs.Mixer.{drawn};

use crate::draws::Draws;
use std::alloc::Global;
use tap_name::{List, Name, Settings};
use tap_scenario::NoMemory;

// How many members there are.
const MEMBERS: u8 = 28;

// How many objects there are.
const OBJECTS: u8 = 20;

// All names of a made scenario.
#[derive(Drop)]
pub(crate) struct Names {
    pub(crate) members: List<Name>,
    pub(crate) newcomers: List<Name>,
    pub(crate) objects: List<Name>,
}

// The hexadecimal digit of a number at a place, the lowest one being at 0.
fn hexadecimal_digit(number: u32, place: u32) -> u8
    requires { place < 8 }
    ensures { result ≡ hexadecimal_digit number place }
{
    ((number >> (4 * place)) % 16) as u8
}

// The name of the six high hexadecimal digits of a number and two of a place.
fn marked_name(settings: &Settings, number: u32, place: u8) -> Name
    requires { settings.now ≡ made_settings }
    ensures { result ≡ marked_name number place }
{
    let place = place as u32;
    let digits = [
        hexadecimal_digit(number, 7),
        hexadecimal_digit(number, 6),
        hexadecimal_digit(number, 5),
        hexadecimal_digit(number, 4),
        hexadecimal_digit(number, 3),
        hexadecimal_digit(number, 2),
        hexadecimal_digit(place, 1),
        hexadecimal_digit(place, 0),
    ];
    Name::from_digits(settings, &digits).unwrap()
}

// The names that the next numbers give, with the places from the first one on.
fn draw_names(
    alloc: Global,
    settings: &Settings,
    draws: &mut Draws,
    first: u8,
    count: u8,
) -> Result<List<Name>, NoMemory>
    requires settings { settings.now ≡ made_settings }
    requires places { first + count ≤ 128 }
    requires few { draws.old.place + count ≤ 1000 }
    ensures names { IfOk result (λ names. names
        ≡ map (λ i. marked_name (drawn draws.old.seed (draws.old.place + i)) (first + i)) (range_with_len 0 count)) }
    ensures draws { OnOk result (draws.new ≡ further draws.old count) }
{
    let mut names = List::from_vec(Vec::with_capacity(alloc, count as usize)?);
    for i in 0..count {
        names.push(marked_name(settings, draws.next(), first + i))?;
    }
    Ok(names)
}

impl Names {
    // Draws all names of a scenario with so many joins.
    pub(crate) fn draw(
        alloc: Global,
        settings: &Settings,
        draws: &mut Draws,
        joins: u8,
    ) -> Result<Names, NoMemory>
        requires settings { settings.now ≡ made_settings }
        requires joins { joins ≤ 100 }
        requires first { draws.old.place ≡ 0 }
        ensures names { IfOk result (HasMadeNames joins draws.old.seed) }
        ensures draws { OnOk result (draws.new ≡ further draws.old (48 + joins)) }
    {
        let members = draw_names(alloc, settings, draws, 0, MEMBERS)?;
        let newcomers = draw_names(alloc, settings, draws, MEMBERS, joins)?;
        let objects = draw_names(alloc, settings, draws, 0, OBJECTS)?;
        Ok(Names {
            members,
            newcomers,
            objects,
        })
    }

    // The member that the next number draws.
    pub(crate) fn draw_member(&self, draws: &mut Draws) -> Name
        requires names { HasMadeNames (length self.now.newcomers) draws.old.seed self.now }
        requires place { draws.old.place < 1000 }
        ensures value { result ≡ drawn_member draws.old.seed draws.old.place }
        ensures draws { draws.new ≡ further draws.old 1 }
    {
        draws.pick(&self.members)
    }

    // The object that the next number draws.
    pub(crate) fn draw_object(&self, draws: &mut Draws) -> Name
        requires names { HasMadeNames (length self.now.newcomers) draws.old.seed self.now }
        requires place { draws.old.place < 1000 }
        ensures value { result ≡ drawn_object (length self.now.newcomers) draws.old.seed draws.old.place }
        ensures draws { draws.new ≡ further draws.old 1 }
    {
        draws.pick(&self.objects)
    }
}
