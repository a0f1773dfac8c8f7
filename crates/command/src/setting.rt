//! Texts to Set.
ghost use Rattle.std.specs.Prelude.{◌≡◌};
ghost use Rattle.command.specs.Sets.{factor, scaling, removing, level, judged, contact, killing, changing, setting};

use crate::fields::{Field, read_leading, read_single};
use crate::operands::judge_whole;
use crate::request::{Refusal, Setting};
use crate::tail::Tail;
use drive::axis::Axis;
use names::SettingName;
use text::{Decimal, Number};

/// The factor that a number makes, where it is in range.
fn factor_of(number: Number) -> Option<Decimal>
    ensures { result ≡ factor number }
{
    number.decimal().filter(|factor| factor.value() >= 1)
}

/// After the comma of IOK,C.
fn read_removal(rest: Tail) -> Result<Setting, Refusal>
    ensures { result ≡ removing rest.entry.at rest.entry.bytes.now }
{
    match rest.bytes {
        [b'C' | b'c', ..] => {
            rest.skip(1).end()?;
            Ok(Setting::NoKillInputs)
        }
        _ => Err(Refusal::Form(rest.at)),
    }
}

/// The level: a comma and a whole number.
fn read_level(rest: Tail) -> Result<Field, Refusal>
    ensures { result ≡ level rest.entry.at rest.entry.bytes.now }
{
    match rest.bytes {
        [b',', ..] => read_single(rest.skip(1), false),
        _ => Err(Refusal::Form(rest.at)),
    }
}

/// A contact from 0 to 15, and a level of 0 or 1.
fn judge_input(contact: Field, level: Field) -> Result<Setting, Refusal>
    ensures { result ≡ judged contact level }
{
    let bit = judge_whole(contact, 0, 15)?;
    let level = judge_whole(level, 0, 1)?;
    Ok(Setting::KillInput {
        bit: bit as u8,
        level: level >= 1,
    })
}

/// A contact and its level.
fn read_input(rest: Tail) -> Result<Setting, Refusal>
    ensures { result ≡ contact rest.entry.at rest.entry.bytes.now }
{
    let contact = read_leading(rest, false)?;
    let level = read_level(rest.skip(contact.number.end))?;
    judge_input(contact, level)
}

/// What follows IOK.
fn read_kill(rest: Tail) -> Result<Setting, Refusal>
    ensures { result ≡ killing rest.entry.at rest.entry.bytes.now }
{
    match rest.bytes {
        [] => Err(Refusal::Form(rest.at)),
        [b',', ..] => read_removal(rest.skip(1)),
        _ => read_input(rest),
    }
}

/// What follows UU: a factor.
fn read_units(rest: Tail) -> Result<Setting, Refusal>
    ensures { result ≡ scaling rest.entry.at rest.entry.bytes.now }
{
    let field = read_single(rest, true)?;
    let factor = factor_of(field.number).ok_or(Refusal::Range(field.at))?;
    Ok(Setting::UnitsOn(factor))
}

/// The table of Set.
fn read_change(name: SettingName, rest: Tail) -> Result<Setting, Refusal>
    ensures { result ≡ changing name rest.entry.at rest.entry.bytes.now }
{
    // A function from a name to its axis would hold the same eight rows.
    let setting = match name {
        SettingName::Ax => Setting::Select(Axis::X),
        SettingName::Ay => Setting::Select(Axis::Y),
        SettingName::Az => Setting::Select(Axis::Z),
        SettingName::At => Setting::Select(Axis::T),
        SettingName::Au => Setting::Select(Axis::U),
        SettingName::Av => Setting::Select(Axis::V),
        SettingName::Ar => Setting::Select(Axis::R),
        SettingName::As => Setting::Select(Axis::S),
        SettingName::Uu => return read_units(rest),
        SettingName::Uf => Setting::UnitsOff,
        SettingName::Iok => return read_kill(rest),
    };
    rest.end()?;
    Ok(setting)
}

/// What a text to Set asks for.
pub(crate) fn read_set(text: &[u8]) -> Result<Setting, Refusal>
    ensures { result ≡ setting text.now }
{
    let (name, rest) = Tail::whole(text).name()?;
    read_change(name, rest)
}
