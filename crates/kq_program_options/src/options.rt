// What the words ask for.
ghost use Rattle.std.specs.Prelude.{◌≡◌, ◌≢◌, IfOk, IsErr, IsErrOf, OnOk, [], map, string_bytes};
ghost use Rattle.std.specs.Char.{is_ascii_digit};
ghost use Rattle.std.specs.List.{All, list_all};
ghost use Rattle.std.specs.Str.{IsUtf8};
ghost use Rattle.clap.specs.Words.{app_of, fault_of, rows_of, matches_of, found_of};
ghost use Rattle.kq_program_options.specs.Command.{console_app, asked_in};
ghost use Rattle.kq_program_options.specs.Words.{asked, as_asked, are_distinct, feeds_given, is_number, number_given, number_in};
ghost use Rattle.kq_program_options.specs.declared.options.OptionsError.TheVariants as error;

use clap::error::ErrorKind;
use clap::{Arg, ArgAction, ArgMatches, Command};
use kq_value::{Memory, Text};
use std::alloc::{AllocError, AllocFailed, Global};

const MOST_DIGITS: usize = 7;

const MOST_WORKERS: u32 = 8;

const MOST_GENERATED: u32 = 1_000_000;

const MOST_FEEDS: usize = 7;

/// What the words ask for.
#[derive(Drop)]
pub struct Options {
    /// The number of workers, 0 where the words don't say it.
    pub workers: u32,
    /// The number that the script is generated from, where it is generated.
    pub generate: Option<u32>,
    /// The names of the feeds, in order.
    pub feeds: Vec<Text>,
}

/// Why words give no options.
#[derive(Clone, Copy, Debug, PartialEq, Eq)]
pub enum OptionsError {
    /// The words haven't the form.
    Form,
    Memory,
}

impl From<AllocError> for OptionsError {
    ghost from_gives = { λ _ e. e ≡ error.Memory };

    fn from(_error: AllocError) -> OptionsError {
        OptionsError::Memory
    }
}

impl<T: Drop> From<AllocFailed<T>> for OptionsError {
    ghost from_gives = { λ _ e. e ≡ error.Memory };

    fn from(_error: AllocFailed<T>) -> OptionsError {
        OptionsError::Memory
    }
}

fn command<'a>(alloc: Global) -> Result<Command<'a>, Memory>
    ensures { IfOk result (λ c. app_of c ≡ console_app) }
{
    let workers = Arg::new(alloc, "workers")
        .long("workers")
        .action(ArgAction::Set);
    let generate = Arg::new(alloc, "generate")
        .long("generate")
        .action(ArgAction::Set);
    let feeds = Arg::new(alloc, "feeds").action(ArgAction::Append);
    let command = Command::new(alloc, "kq_console")
        .no_binary_name(true)
        .disable_help_flag(true)
        .disable_version_flag(true);
    Ok(command.arg(workers)?.arg(generate)?.arg(feeds)?)
}

// The words as texts.
fn texts<'a>(alloc: Global, words: &'a [String]) -> Result<Vec<&'a str>, Memory>
    ensures texts { IfOk result (λ v. map (λ t. t.now) v.items ≡ map string_bytes words.entry.now) }
    ensures utf8 { IfOk result (λ v. All IsUtf8 (map (λ t. t.now) v.items)) }
{
    let mut texts = Vec::with_capacity(alloc, words.len())?;
    for word in words {
        texts.push(word.as_str())?;
    }
    Ok(texts)
}

fn matches<'a>(alloc: Global, words: &'a [&'a str]) -> Result<ArgMatches<'a>, OptionsError>
    ensures fault { OnOk result (fault_of console_app (map (λ w. w.now) words.entry.now) ≡ []) }
    ensures rows { IfOk result (λ m. rows_of (found_of m) ≡ matches_of console_app (map (λ w. w.now) words.entry.now)) }
    ensures form { IsErrOf result OptionsError.Form → fault_of console_app (map (λ w. w.now) words.entry.now) ≢ [] }
{
    match command(alloc)?.try_get_matches_from(words) {
        Ok(matches) => Ok(matches),
        Err(error) => match error.kind() {
            ErrorKind::OutOfMemory => Err(OptionsError::Memory),
            _ => Err(OptionsError::Form),
        },
    }
}

fn are_digits(text: &str) -> bool
    ensures { result ≡ list_all is_ascii_digit text.now }
{
    text.as_bytes().iter().all(|byte| byte.is_ascii_digit())
}

fn is_number(text: &str) -> bool
    ensures { result ≡ is_number text.now }
{
    !text.is_empty() && text.len() <= MOST_DIGITS && are_digits(text)
}

// The number that a text spells, from `least` to `most`.
fn number_in(text: &str, least: u32, most: u32) -> Option<u32>
    ensures { result ≡ number_in least most text.now }
{
    if !is_number(text) {
        return None;
    }
    let number = text.parse::<u32>().ok()?;
    if least <= number && number <= most {
        Some(number)
    } else {
        None
    }
}

// The number of an option, from what it was given.
fn number(given: &[&str], least: u32, most: u32) -> Result<Option<u32>, OptionsError>
    ensures ok { IfOk result (λ n. number_given least most (map (λ t. t.now) given.now) ≡ Some n) }
    ensures form { IsErr result → number_given least most (map (λ t. t.now) given.now) ≡ None }
{
    match given {
        [] => Ok(None),
        [text] => match number_in(text, least, most) {
            Some(number) => Ok(Some(number)),
            None => Err(OptionsError::Form),
        },
        _ => Err(OptionsError::Form),
    }
}

fn are_distinct(names: &[&str]) -> bool
    ensures { result ≡ are_distinct (map (λ n. n.now) names.now) }
{
    match names.split_first() {
        Some((first, rest)) => !rest.contains(first) && are_distinct(rest),
        None => true,
    }
}

fn feeds(alloc: Global, names: &[&str]) -> Result<Vec<Text>, OptionsError>
    ensures ok { IfOk result (λ fs. feeds_given (map (λ n. n.now) names.now) ≡ Some fs.items) }
    ensures form { IsErrOf result OptionsError.Form → feeds_given (map (λ n. n.now) names.now) ≡ None }
{
    if names.len() > MOST_FEEDS || !are_distinct(names) {
        return Err(OptionsError::Form);
    }
    let mut feeds = Vec::with_capacity(alloc, names.len())?;
    for name in names {
        feeds.push(Text::from_str(alloc, name)?)?;
    }
    Ok(feeds)
}

// What the values of a parse ask for.
fn options_in(alloc: Global, matches: &ArgMatches<'_>) -> Result<Options, OptionsError>
    ensures ok { IfOk result (λ o. asked_in (rows_of (found_of matches.now)) ≡ Some (as_asked o)) }
    ensures form { IsErrOf result OptionsError.Form → asked_in (rows_of (found_of matches.now)) ≡ None }
{
    let workers = number(matches.get_strs("workers").unwrap_or(&[]), 0, MOST_WORKERS)?;
    let generate = number(
        matches.get_strs("generate").unwrap_or(&[]),
        1,
        MOST_GENERATED,
    )?;
    let feeds = feeds(alloc, matches.get_strs("feeds").unwrap_or(&[]))?;
    Ok(Options {
        workers: workers.unwrap_or(0),
        generate,
        feeds,
    })
}

impl Options {
    /// Reads the words after the program's name, from left to right: `[--workers N] [--generate N] [FEED ..]`.
    ///
    /// Each option stands at most once, with its number as the next word or after `=`. A number is one to seven ASCII
    /// digits, up to 8 for `--workers` and from 1 to 1000000 for `--generate`. The word `--` makes all later words feeds.
    /// Any other word that begins with `-` and is longer than that is refused, and the rest are feeds: at most seven, no
    /// two equal.
    pub fn from_words(alloc: Global, words: &[String]) -> Result<Options, OptionsError>
        ensures ok { IfOk result (λ o. asked (map string_bytes words.now) ≡ Some (as_asked o)) }
        ensures form { IsErrOf result OptionsError.Form → asked (map string_bytes words.now) ≡ None }
    {
        let texts = texts(alloc, words)?;
        let matches = matches(alloc, texts.as_slice())?;
        options_in(alloc, &matches)
    }
}
