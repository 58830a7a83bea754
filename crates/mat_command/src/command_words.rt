//! The words of a command line.

ghost use Rattle.std.specs.Prelude.{◌≡◌, ◌≤◌, map, string_bytes, option_map, IfSome};
ghost use Rattle.mat_sets.specs.Limits.{most_elements, most_trees};
ghost use Rattle.mat_solve.specs.Queries.{IsQueryInRange};
ghost use Rattle.mat_command.specs.{
  CommandLines.{query_for, request_for, query_of_trees, number_from, number_up_to, rung_number, kind_in, with_file, with_number, with_two, sample_for, witness_of, with_three, with_four, task_for, begins_with_option, takes_workers, with_option, without_option, command_line},
  Commands.{task_of, request_of, IsRequestInRange, IsTaskInRange},
  Views.{line_of},
};

use crate::command::{Command, CommandLine, Request};
use mat_gen::SampleKind;
use mat_solve::Query;
use mat_words::read_number;

// The most trees that a command asks for.
const MOST_TREES: u32 = 64;

// The most elements of a sample.
const LARGEST_SIZE: u32 = 500;

// The most elements of a rung.
const LAST_RUNG: u32 = 500;

// The largest number that a sample is drawn from.
const LARGEST_SEED: u32 = 2_147_483_646;

// The most workers.
const MOST_WORKERS: u32 = 16;

// The query of a command that takes a file alone.
fn query_for(command: &str) -> Option<Query>
    ensures query { result ≡ query_for command.now }
    ensures range { IfSome result IsQueryInRange }
{
    match command {
        "best" => Some(Query::Best),
        "intersect" => Some(Query::Intersect),
        "union" => Some(Query::Union),
        "pack" => Some(Query::Pack),
        "cover" => Some(Query::Cover),
        "arborescence" => Some(Query::Arborescence),
        "rainbow" => Some(Query::Rainbow),
        "assign" => Some(Query::Assign),
        _ => None,
    }
}

// The query of a command that takes a number of trees.
fn query_of_trees(command: &str, k: u32) -> Option<Query>
    requires { (1 ≤ k) × (k ≤ most_trees) }
    ensures query { result ≡ query_of_trees command.now k }
    ensures range { IfSome result IsQueryInRange }
{
    match command {
        "trees" => Some(Query::Trees(k)),
        "disjoint" => Some(Query::Disjoint(k)),
        _ => None,
    }
}

// The number from `least` to `most` that a word spells: None where it spells none.
fn number_from(least: u32, most: u32, word: &str) -> Option<u32>
    ensures number { result ≡ number_from least most word.now }
    ensures range { IfSome result (λ k. (least ≤ k) × (k ≤ most)) }
{
    match read_number(word.as_bytes(), i128::from(least), i128::from(most)) {
        Ok(number) => Some(number as u32),
        Err(_) => None,
    }
}

// The number from 1 to this bound that a word spells: None where it spells none.
fn number_up_to(most: u32, word: &str) -> Option<u32>
    ensures number { result ≡ number_up_to most word.now }
    ensures range { IfSome result (λ k. (1 ≤ k) × (k ≤ most)) }
{
    number_from(1, most, word)
}

// The number of a rung, from 0 to 500, that a word spells: None where it spells none.
fn rung_number(word: &str) -> Option<u32>
    ensures number { result ≡ rung_number word.now }
    ensures range { IfSome result (λ k. k ≤ most_elements) }
{
    number_from(0, LAST_RUNG, word)
}

// The kind of sample that a word names.
fn kind_in(word: &str) -> Option<SampleKind>
    ensures { result ≡ kind_in word.now }
{
    match word {
        "pair" => Some(SampleKind::Pair),
        "list" => Some(SampleKind::List),
        "graph" => Some(SampleKind::Graph),
        "rooted" => Some(SampleKind::Rooted),
        "table" => Some(SampleKind::Table),
        _ => None,
    }
}

// What a command asks about a problem, where it takes its file alone.
fn request_for<'a>(command: &str) -> Option<Request<'a>>
    ensures request { option_map request_of result ≡ request_for command.now }
    ensures range { IfSome result (λ r. IsRequestInRange (request_of r)) }
{
    match command {
        "show" => Some(Request::Show),
        "cuts" => Some(Request::Cuts),
        _ => Some(Request::Solve(query_for(command)?)),
    }
}

// A command and its one file.
fn with_file<'a>(command: &str, file: &'a str) -> Option<Command<'a>>
    ensures task { option_map task_of result ≡ with_file command.now file.now }
    ensures range { IfSome result (λ c. IsTaskInRange (task_of c)) }
{
    if command == "batch" {
        return Some(Command::Batch { list: file });
    }
    if command == "convert" {
        return Some(Command::Convert { file });
    }
    let request = request_for(command)?;
    Some(Command::About { file, request })
}

// A command, a number of trees and a file.
fn with_number<'a>(command: &str, number: &str, file: &'a str) -> Option<Command<'a>>
    ensures task { option_map task_of result ≡ with_number command.now number.now file.now }
    ensures range { IfSome result (λ c. IsTaskInRange (task_of c)) }
{
    let k = number_up_to(MOST_TREES, number)?;
    let request = Request::Solve(query_of_trees(command, k)?);
    Some(Command::About { file, request })
}

// A command and two arguments.
fn with_two<'a>(command: &str, first: &'a str, second: &'a str) -> Option<Command<'a>>
    ensures task { option_map task_of result ≡ with_two command.now first.now second.now }
    ensures range { IfSome result (λ c. IsTaskInRange (task_of c)) }
{
    if command == "check" {
        return Some(Command::About {
            file: first,
            request: Request::Check {
                certificate: second,
            },
        });
    }
    with_number(command, first, second)
}

// The sample that three words ask for.
fn sample_for<'a>(first: &str, second: &str, third: &str) -> Option<Command<'a>>
    ensures task { option_map task_of result ≡ sample_for first.now second.now third.now }
    ensures range { IfSome result (λ c. IsTaskInRange (task_of c)) }
{
    let kind = kind_in(first)?;
    let size = number_up_to(LARGEST_SIZE, second)?;
    let seed = u64::from(number_up_to(LARGEST_SEED, third)?);
    Some(Command::Sample { kind, size, seed })
}

// The command that asks for a witness of this rung of a certificate.
fn witness_of<'a>(rung: &str, file: &'a str, certificate: &'a str) -> Option<Command<'a>>
    ensures task { option_map task_of result ≡ witness_of rung.now file.now certificate.now }
    ensures range { IfSome result (λ c. IsTaskInRange (task_of c)) }
{
    let rung = rung_number(rung)?;
    Some(Command::About {
        file,
        request: Request::Witness { rung, certificate },
    })
}

// A command and three arguments.
fn with_three<'a>(
    command: &str,
    first: &'a str,
    second: &'a str,
    third: &'a str,
) -> Option<Command<'a>>
    ensures task { option_map task_of result ≡ with_three command.now first.now second.now third.now }
    ensures range { IfSome result (λ c. IsTaskInRange (task_of c)) }
{
    match command {
        "sample" => sample_for(first, second, third),
        "witness" => witness_of(first, second, third),
        _ => None,
    }
}

// A command and four arguments.
fn with_four<'a>(
    command: &str,
    rung: &str,
    file: &'a str,
    certificate: &'a str,
    witness: &'a str,
) -> Option<Command<'a>>
    ensures task { option_map task_of result ≡ with_four command.now rung.now file.now certificate.now witness.now }
    ensures range { IfSome result (λ c. IsTaskInRange (task_of c)) }
{
    if command != "verify" {
        return None;
    }
    let rung = rung_number(rung)?;
    Some(Command::About {
        file,
        request: Request::Verify {
            rung,
            certificate,
            witness,
        },
    })
}

/// A command with its arguments.
pub(crate) fn command_for<'a>(command: &str, arguments: &'a [String]) -> Option<Command<'a>>
    ensures task { option_map task_of result ≡ task_for command.now (map string_bytes arguments.now) }
    ensures range { IfSome result (λ c. IsTaskInRange (task_of c)) }
{
    match arguments {
        [file] => with_file(command, file.as_str()),
        [first, second] => with_two(command, first.as_str(), second.as_str()),
        [first, second, third] => {
            with_three(command, first.as_str(), second.as_str(), third.as_str())
        }
        [rung, file, certificate, witness] => with_four(
            command,
            rung.as_str(),
            file.as_str(),
            certificate.as_str(),
            witness.as_str(),
        ),
        _ => None,
    }
}

/// Whether the first argument is the option, which names no file.
pub(crate) fn begins_with_option(arguments: &[String]) -> bool
    ensures { result ≡ begins_with_option (map string_bytes arguments.now) }
{
    match arguments {
        [] => false,
        [first, ..] => first.as_str() == "--workers",
    }
}

impl<'a> Command<'a> {
    // Whether it takes the option.
    fn takes_workers(&self) -> bool
        ensures { result ≡ takes_workers (task_of self.now) }
    {
        match self {
            Command::About { request, .. } => {
                matches!(request, Request::Solve(_) | Request::Check { .. })
            }
            Command::Convert { .. } => false,
            Command::Sample { .. } | Command::Batch { .. } => true,
        }
    }
}

// A command with the option, its number and the arguments behind it.
fn with_option<'a>(command: &str, others: &'a [String]) -> Option<CommandLine<'a>>
    ensures { option_map line_of result ≡ with_option command.now (map string_bytes others.now) }
{
    let [_, number, arguments @ ..] = others else {
        return None;
    };
    let workers = number_up_to(MOST_WORKERS, number.as_str())?;
    let command = command_for(command, arguments)?;
    if !command.takes_workers() {
        return None;
    }
    Some(CommandLine { workers, command })
}

// A command with its arguments alone: one worker.
fn without_option<'a>(command: &str, arguments: &'a [String]) -> Option<CommandLine<'a>>
    ensures { option_map line_of result ≡ without_option command.now (map string_bytes arguments.now) }
{
    let command = command_for(command, arguments)?;
    Some(CommandLine {
        workers: 1,
        command,
    })
}

/// The command line that the words are: None where they are none. It takes no memory.
#[tactic(auto, unfolding(crate::specs::CommandLines::command_line))]
pub fn command_line(words: &[String]) -> Option<CommandLine<'_>>
    ensures { option_map line_of result ≡ command_line (map string_bytes words.now) }
{
    let [command, others @ ..] = words else {
        return None;
    };
    if begins_with_option(others) {
        with_option(command.as_str(), others)
    } else {
        without_option(command.as_str(), others)
    }
}
