//! The words behind the command word, as `clap` reads them.

ghost use Rattle.std.specs.Prelude.{◌≡◌, ◌↔◌, [], IfOk, IsTrue, MatchOption};
ghost use Rattle.std.specs.List.{list_all};
ghost use Rattle.clap.specs.Simple.{app_of, with_rule};
ghost use Rattle.clap.specs.Values.{kind_of};
ghost use Rattle.clap.specs.Walk.{rows_of};
ghost use Rattle.clap.specs.Matches.{found_of};
ghost use Rattle.run_words.specs.Line.{Given, Gives, is_given, words_of};
ghost use Rattle.run_words.specs.Parsers.{Holds, app_for, are_given, bare_app, files_app, flag_rule, given_by, has_given_alone, setting_rule, texts_of, vals, words_rule};

use crate::command::{Command, Flag, Setting};
use base_core::NoMemory;
use clap::error::ErrorKind;
use clap::{Arg, ArgAction, ArgMatches, Error};
use std::alloc::{AllocError, Global};

/// What the words give, or none where they are no line of the command.
pub(crate) fn read_line<'a>(
    alloc: Global,
    command: Command,
    words: &'a [String],
) -> Result<Option<ArgMatches<'a>>, NoMemory>
    ensures { IfOk result (λ found. MatchOption found ((g : Given) → ¬ Gives command (words_of words.now) g)
        (λ matches. Holds command (words_of words.now) (given_by matches))) }
{
    let parser = parser_of(alloc, command)?;
    match parser.try_get_matches_from(words) {
        Ok(matches) => {
            if are_given(&matches) {
                return Ok(Some(matches));
            }
            Ok(None)
        }
        Err(error) => {
            if wants_memory(&error) {
                return Err(AllocError);
            }
            Ok(None)
        }
    }
}

fn wants_memory(error: &Error) -> bool
    ensures { IsTrue result ↔ (kind_of error.now ≡ ErrorKind.OutOfMemory) }
{
    error.kind() == ErrorKind::OutOfMemory
}

/// How `clap` reads the words behind the command word. Each argument may stand more than once, so that its values can be
/// counted.
fn parser_of<'a>(alloc: Global, command: Command) -> Result<clap::Command<'a>, NoMemory>
    ensures { IfOk result (λ parser. app_of parser ≡ app_for command) }
{
    match command {
        Command::Validate => {
            let parser = with_files(alloc, "validate", Setting::Limit)?;
            let parser = with_setting(alloc, parser, Setting::Why)?;
            with_words(alloc, with_setting(alloc, parser, Setting::Near)?)
        }
        Command::Check => with_words(alloc, with_files(alloc, "check", Setting::Witness)?),
        Command::SelfRun => with_words(alloc, bare(alloc, "selfrun")),
    }
}

/// The parser of the options of a command that takes a module and logs, with one option more.
fn with_files<'a>(
    alloc: Global,
    name: &'a str,
    last: Setting,
) -> Result<clap::Command<'a>, NoMemory>
    ensures { IfOk result (λ parser. app_of parser ≡ files_app name.entry.now last) }
{
    let parser = with_setting(alloc, bare(alloc, name), Setting::Config)?;
    let parser = with_setting(alloc, parser, Setting::Within)?;
    let parser = with_setting(alloc, parser, Setting::Silent)?;
    let parser = with_flag(alloc, parser, Flag::Stutter)?;
    let parser = with_flag(alloc, parser, Flag::Wide)?;
    let parser = with_flag(alloc, parser, Flag::Ties)?;
    with_setting(alloc, parser, last)
}

fn bare<'a>(alloc: Global, name: &'a str) -> clap::Command<'a>
    ensures { app_of result ≡ bare_app name.entry.now }
{
    clap::Command::new(alloc, name)
        .no_binary_name(true)
        .disable_help_flag(true)
        .disable_version_flag(true)
}

fn with_setting<'a>(
    alloc: Global,
    parser: clap::Command<'a>,
    setting: Setting,
) -> Result<clap::Command<'a>, NoMemory>
    ensures { IfOk result (λ more. app_of more ≡ with_rule (app_of parser.entry) (setting_rule setting)) }
{
    let arg = Arg::new(alloc, setting.id())
        .long(setting.id())
        .action(ArgAction::Append);
    parser.arg(arg)
}

fn with_flag<'a>(
    alloc: Global,
    parser: clap::Command<'a>,
    flag: Flag,
) -> Result<clap::Command<'a>, NoMemory>
    ensures { IfOk result (λ more. app_of more ≡ with_rule (app_of parser.entry) (flag_rule flag)) }
{
    let arg = Arg::new(alloc, flag.id())
        .long(flag.id())
        .action(ArgAction::Append)
        .num_args(0)
        .default_missing_value("");
    parser.arg(arg)
}

fn with_words<'a>(alloc: Global, parser: clap::Command<'a>) -> Result<clap::Command<'a>, NoMemory>
    ensures { IfOk result (λ more. app_of more ≡ with_rule (app_of parser.entry) words_rule) }
{
    parser.arg(Arg::new(alloc, "words").action(ArgAction::Append))
}

/// The values of an argument, of all its uses; none where it does not stand.
pub(crate) fn values<'m, 'a>(matches: &'m ArgMatches<'a>, id: &str) -> Option<&'m [&'a str]>
    ensures { MatchOption result (vals id.now (rows_of (found_of matches.now)) ≡ []) (λ values. texts_of values.now ≡ vals id.now (rows_of (found_of matches.now))) }
{
    matches.get_strs(id)
}

/// Whether no value and no positional word is empty or `-`.
fn are_given(matches: &ArgMatches<'_>) -> bool
    ensures { result ≡ are_given (rows_of (found_of matches.now)) }
{
    has_given_alone(matches, "config")
        && has_given_alone(matches, "within")
        && has_given_alone(matches, "silent")
        && has_given_alone(matches, "limit")
        && has_given_alone(matches, "witness")
        && has_given_alone(matches, "why")
        && has_given_alone(matches, "near")
        && has_given_alone(matches, "words")
}

fn has_given_alone(matches: &ArgMatches<'_>, id: &str) -> bool
    ensures { result ≡ has_given_alone (rows_of (found_of matches.now)) id.now }
{
    match values(matches, id) {
        Some(words) => all_given(words),
        None => true,
    }
}

fn all_given(words: &[&str]) -> bool
    ensures { result ≡ list_all (λ word. is_given word.now) words.now }
{
    words.iter().all(|word| is_given(word))
}

/// Whether a word is neither empty nor `-`.
pub(crate) fn is_given(word: &str) -> bool
    ensures { result ≡ is_given word.now }
{
    !word.is_empty() && word != "-"
}
