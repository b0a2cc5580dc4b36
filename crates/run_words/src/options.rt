//! The values of the options of a line.

ghost use Rattle.std.specs.Prelude.{◌≡◌, ◌≢◌, ◌↔◌, ◌≤◌, [], ◌∷◌, ℕ, Bool, IsTrue, true, List, Option, MatchOption, MatchResult, length, option_map};
ghost use Rattle.run_words.specs.Job.{IsNumberIn, IsNumberOr, IsSet, IsTied, SetsOptions, times, values_of};
ghost use Rattle.run_words.specs.Parsers.{given_by, texts_of};
ghost use Rattle.run_words.specs.Values.{IsOperator, IsValue, NumberFrom, NumberIn};

use crate::command::{Flag, Setting};
use crate::job::Options;
use crate::line::values;
use crate::number::number;
use clap::ArgMatches;
use reading_tokens::is_name;

/// An option stands more than once.
#[derive(Clone, Copy, Debug, Drop)]
pub(crate) struct Repeated;

/// The value of an option, where it stands.
pub(crate) fn value_of<'a>(
    matches: &ArgMatches<'a>,
    setting: Setting,
) -> Result<Option<&'a str>, Repeated>
    ensures { MatchResult result (IsValue (values_of setting (given_by matches.now).options)) (λ _. 2 ≤ length (values_of setting (given_by matches.now).options)) }
{
    match values(matches, setting.id()) {
        Some(values) => single(values),
        None => Ok(None),
    }
}

fn single<'a>(values: &[&'a str]) -> Result<Option<&'a str>, Repeated>
    ensures { MatchResult result (IsValue (texts_of values.now)) (λ _. 2 ≤ length (texts_of values.now)) }
{
    match values {
        [] => Ok(None),
        [value] => Ok(Some(*value)),
        _ => Err(Repeated),
    }
}

/// The value of `--silent`, where it stands: a name.
pub(crate) fn operator<'a>(matches: &ArgMatches<'a>) -> Option<Option<&'a str>>
    ensures { MatchOption result ((v : Option (List ℕ)) → ¬ IsOperator (given_by matches.now).options v) (λ v. IsOperator (given_by matches.now).options (option_map (λ t. t.now) v)) }
{
    match value_of(matches, Setting::Silent) {
        Ok(Some(name)) => {
            if is_name(name.as_bytes()) {
                Some(Some(name))
            } else {
                None
            }
        }
        Ok(None) => Some(None),
        Err(_) => None,
    }
}

/// The value of `--witness`, where that stands once.
pub(crate) fn witness<'a>(matches: &ArgMatches<'a>) -> Option<&'a str>
    ensures { MatchOption result ((w : List ℕ) → values_of Setting.Witness (given_by matches.now).options ≢ w ∷ []) (λ w. values_of Setting.Witness (given_by matches.now).options ≡ w.now ∷ []) }
{
    match value_of(matches, Setting::Witness) {
        Ok(found) => found,
        Err(_) => None,
    }
}

/// How many lines an option asks for at most, where it stands: `--why` and `--near` do.
pub(crate) fn most_of(matches: &ArgMatches<'_>, setting: Setting) -> Option<Option<u32>>
    ensures { MatchOption result ((o : Option ℕ) → ¬ IsNumberIn (values_of setting (given_by matches.now).options) 1 1000 o)
        (IsNumberIn (values_of setting (given_by matches.now).options) 1 1000) }
{
    match value_of(matches, setting) {
        Ok(value) => number_in(value, 1, 1000),
        Err(_) => None,
    }
}

fn number_in(value: Option<&str>, least: u32, most: u32) -> Option<Option<u32>>
    ensures { MatchOption result ((o : Option ℕ) → ¬ NumberIn (option_map (λ t. t.now) value.entry) least most o)
        (NumberIn (option_map (λ t. t.now) value.entry) least most) }
{
    match value {
        Some(text) => match number(text, least, most) {
            Some(n) => Some(Some(n)),
            None => None,
        },
        None => Some(None),
    }
}

/// The options of a line that are numbers or flags.
pub(crate) fn read_options(matches: &ArgMatches<'_>) -> Option<Options>
    ensures { MatchOption result ((o : Options) → ¬ SetsOptions (given_by matches.now) o) (SetsOptions (given_by matches.now)) }
{
    let within = number_of(matches, Setting::Within, 1, 1, 8)?;
    let limit = number_of(matches, Setting::Limit, 10000, 1, 100_000)?;
    let stutter = is_set(matches, Flag::Stutter)?;
    Some(Options {
        within,
        stutter,
        limit,
    })
}

/// Whether `--ties` stands, which it may once, and neither beside `--why` nor beside `--near`.
pub(crate) fn ties(matches: &ArgMatches<'_>) -> Option<bool>
    ensures { MatchOption result ((b : Bool) → ¬ IsTied (given_by matches.now) b) (IsTied (given_by matches.now)) }
{
    match is_set(matches, Flag::Ties) {
        Some(true) => tied_alone(matches),
        Some(false) => Some(false),
        None => None,
    }
}

#[tactic(auto, using(crate::proofs::JobLaws::not_alone))]
fn tied_alone(matches: &ArgMatches<'_>) -> Option<bool>
    requires { IsSet (times Flag.Ties (given_by matches.now).flags) true }
    ensures { MatchOption result ((b : Bool) → ¬ IsTied (given_by matches.now) b) (IsTied (given_by matches.now)) }
{
    if stands(matches, Setting::Why) {
        return None;
    }
    if stands(matches, Setting::Near) {
        return None;
    }
    Some(true)
}

/// Whether an option stands, once or more often.
#[tactic(auto, using(crate::proofs::ReadLaws::one_stands, crate::proofs::ReadLaws::none_stands, crate::proofs::ReadLaws::many_stand))]
fn stands(matches: &ArgMatches<'_>, setting: Setting) -> bool
    ensures { IsTrue result ↔ (values_of setting (given_by matches.now).options ≢ []) }
{
    match value_of(matches, setting) {
        Ok(Some(_)) => true,
        Ok(None) => false,
        Err(_) => true,
    }
}

/// Whether a flag stands, which it may once.
pub(crate) fn is_set(matches: &ArgMatches<'_>, flag: Flag) -> Option<bool>
    ensures { MatchOption result ((b : Bool) → ¬ IsSet (times flag (given_by matches.now).flags) b) (IsSet (times flag (given_by matches.now).flags)) }
{
    match values(matches, flag.id()) {
        Some(flags) => is_once(flags),
        None => Some(false),
    }
}

fn is_once(flags: &[&str]) -> Option<bool>
    ensures { MatchOption result ((b : Bool) → ¬ IsSet (length (texts_of flags.now)) b) (IsSet (length (texts_of flags.now))) }
{
    match flags {
        [] => Some(false),
        [_] => Some(true),
        _ => None,
    }
}

fn number_of(
    matches: &ArgMatches<'_>,
    setting: Setting,
    default: u32,
    least: u32,
    most: u32,
) -> Option<u32>
    ensures { MatchOption result ((n : ℕ) → ¬ IsNumberOr default (values_of setting (given_by matches.now).options) least most n)
        (IsNumberOr default (values_of setting (given_by matches.now).options) least most) }
{
    match value_of(matches, setting) {
        Ok(value) => number_or(value, default, least, most),
        Err(_) => None,
    }
}

fn number_or(value: Option<&str>, default: u32, least: u32, most: u32) -> Option<u32>
    ensures { MatchOption result ((n : ℕ) → ¬ NumberFrom default (option_map (λ t. t.now) value.entry) least most n)
        (NumberFrom default (option_map (λ t. t.now) value.entry) least most) }
{
    match value {
        Some(text) => number(text, least, most),
        None => Some(default),
    }
}
