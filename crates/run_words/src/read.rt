//! The command that the words give.

ghost use Rattle.std.specs.Prelude.{◌≡◌, ℕ, List, IfOk, IfSome, MatchOption, codes, ◌∷◌, option_map};
ghost use Rattle.run_words.specs.declared.command.Command.TheVariants.{Validate};
ghost use Rattle.run_words.specs.Line.{words_of};
ghost use Rattle.run_words.specs.Job.{AreFiles, IsJob};
ghost use Rattle.run_words.specs.Parsers.{given_by, texts_of};
ghost use Rattle.run_words.specs.Words.{Asks, AsksCheck, AsksNumber, IsOnlyNumber, IsWitnessed, MeetsRules, Reads};

use crate::command::{Command, Flag, Setting};
use crate::job::{Job, Words};
use crate::line::{read_line, values};
use crate::name::is_module;
use crate::number::number;
use crate::options::{is_set, most_of, operator, read_options, ties, value_of, witness};
use base_core::{Names, NoMemory, Text};
use clap::ArgMatches;
use std::alloc::Global;

/// The command that the words give, without the program's own name; none where they are no command.
pub fn read_words(alloc: Global, words: &[String]) -> Result<Option<Words>, NoMemory>
    ensures reads { Reads (words_of words.now) result }
    ensures meets { IfOk result (λ read. IfSome read MeetsRules) }
{
    let [first, rest @ ..] = words else {
        return Ok(None);
    };
    match first.as_str() {
        "validate" => validate(alloc, rest),
        "check" => check(alloc, rest),
        "selfrun" => selfrun(alloc, rest),
        _ => Ok(None),
    }
}

/// The command of the words behind `validate`.
fn validate(alloc: Global, words: &[String]) -> Result<Option<Words>, NoMemory>
    ensures { Reads (codes "validate" ∷ words_of words.now) result }
{
    match read_validate(alloc, words)? {
        Some(job) => Ok(Some(Words::Validate(job))),
        None => Ok(None),
    }
}

/// The command of the words behind `check`.
fn check(alloc: Global, words: &[String]) -> Result<Option<Words>, NoMemory>
    ensures { Reads (codes "check" ∷ words_of words.now) result }
{
    match read_check(alloc, words)? {
        Some((job, witness)) => Ok(Some(Words::Check(job, witness))),
        None => Ok(None),
    }
}

/// The command of the words behind `selfrun`.
fn selfrun(alloc: Global, words: &[String]) -> Result<Option<Words>, NoMemory>
    ensures { Reads (codes "selfrun" ∷ words_of words.now) result }
{
    match read_selfrun(alloc, words)? {
        Some(n) => Ok(Some(Words::SelfRun(n))),
        None => Ok(None),
    }
}

/// The job of `validate`.
fn read_validate(alloc: Global, words: &[String]) -> Result<Option<Job>, NoMemory>
    ensures { IfOk result (λ read. MatchOption read ((j : Job) → ¬ Asks Validate (words_of words.now) j) (Asks Validate (words_of words.now))) }
{
    match read_line(alloc, Command::Validate, words)? {
        Some(matches) => read_job(alloc, &matches),
        None => Ok(None),
    }
}

/// The job of `check`, and the path of the file of states.
fn read_check(alloc: Global, words: &[String]) -> Result<Option<(Job, Text)>, NoMemory>
    ensures { IfOk result (λ read. MatchOption read ((j : Job) (w : List ℕ) → ¬ AsksCheck (words_of words.now) j w) (λ r. AsksCheck (words_of words.now) r.0 r.1)) }
{
    match read_line(alloc, Command::Check, words)? {
        Some(matches) => read_witnessed(alloc, &matches),
        None => Ok(None),
    }
}

fn read_witnessed(alloc: Global, matches: &ArgMatches<'_>) -> Result<Option<(Job, Text)>, NoMemory>
    ensures { IfOk result (λ read. MatchOption read ((j : Job) (w : List ℕ) → ¬ IsWitnessed (given_by matches.now) j w) (λ r. IsWitnessed (given_by matches.now) r.0 r.1)) }
{
    let Some(path) = witness(matches) else {
        return Ok(None);
    };
    match read_job(alloc, matches)? {
        Some(job) => Ok(Some((job, Text::from_text(alloc, path)?))),
        None => Ok(None),
    }
}

/// The number of `selfrun`.
fn read_selfrun(alloc: Global, words: &[String]) -> Result<Option<u32>, NoMemory>
    ensures { IfOk result (λ read. MatchOption read ((n : ℕ) → ¬ AsksNumber (words_of words.now) n) (AsksNumber (words_of words.now))) }
{
    match read_line(alloc, Command::SelfRun, words)? {
        Some(matches) => Ok(single_number(&matches)),
        None => Ok(None),
    }
}

fn single_number(matches: &ArgMatches<'_>) -> Option<u32>
    ensures { MatchOption result ((n : ℕ) → ¬ IsOnlyNumber (given_by matches.now).positional n) (IsOnlyNumber (given_by matches.now).positional) }
{
    match values(matches, "words") {
        Some(words) => only_number(words),
        None => None,
    }
}

fn only_number(words: &[&str]) -> Option<u32>
    ensures { MatchOption result ((n : ℕ) → ¬ IsOnlyNumber (texts_of words.now) n) (IsOnlyNumber (texts_of words.now)) }
{
    match words {
        [text] => number(text, 1, 20_000),
        _ => None,
    }
}

/// The job of a line.
fn read_job(alloc: Global, matches: &ArgMatches<'_>) -> Result<Option<Job>, NoMemory>
    ensures { IfOk result (λ read. MatchOption read ((j : Job) → ¬ IsJob (given_by matches.now) j) (IsJob (given_by matches.now))) }
{
    let Some(words) = values(matches, "words") else {
        return Ok(None);
    };
    let Some((path, logs)) = files(words) else {
        return Ok(None);
    };
    let Ok(config) = value_of(matches, Setting::Config) else {
        return Ok(None);
    };
    let Some(silent) = operator(matches) else {
        return Ok(None);
    };
    let Some(options) = read_options(matches) else {
        return Ok(None);
    };
    let Some(why) = most_of(matches, Setting::Why) else {
        return Ok(None);
    };
    let Some(near) = most_of(matches, Setting::Near) else {
        return Ok(None);
    };
    let Some(wide) = is_set(matches, Flag::Wide) else {
        return Ok(None);
    };
    let Some(ties) = ties(matches) else {
        return Ok(None);
    };
    Ok(Some(Job {
        module: Text::from_text(alloc, path)?,
        logs: names(alloc, logs)?,
        config: owned(alloc, config)?,
        silent: owned(alloc, silent)?,
        options,
        why,
        near,
        wide,
        ties,
    }))
}

/// The path of the module and those of 1 to 64 logs.
fn files<'a, 'b>(words: &'b [&'a str]) -> Option<(&'a str, &'b [&'a str])>
    ensures { MatchOption result ((path : List ℕ) (logs : List (List ℕ)) → ¬ AreFiles (texts_of words.now) path logs) (λ f. AreFiles (texts_of words.now) f.0.now (texts_of f.1.now)) }
{
    let [path, logs @ ..] = words else {
        return None;
    };
    if logs.is_empty() {
        return None;
    }
    if logs.len() > 64 {
        return None;
    }
    if !is_module(path) {
        return None;
    }
    Some((*path, logs))
}

fn names(alloc: Global, texts: &[&str]) -> Result<Names, NoMemory>
    ensures { IfOk result (λ names. names ≡ texts_of texts.now) }
{
    let mut names = Names::new(alloc);
    for text in texts {
        names.push(Text::from_text(alloc, text)?)?;
    }
    Ok(names)
}

fn owned(alloc: Global, text: Option<&str>) -> Result<Option<Text>, NoMemory>
    ensures { IfOk result (λ o. o ≡ option_map (λ t. t.now) text.entry) }
{
    match text {
        Some(text) => Ok(Some(Text::from_text(alloc, text)?)),
        None => Ok(None),
    }
}
