//! Commands, and how many workers compute them.

ghost use Rattle.mat_work.specs.Workers.{AreWorkers};
ghost use Rattle.mat_command.specs.Commands.{task_of, IsTaskInRange, IsTaskInRange-prop};

use mat_gen::SampleKind;
use mat_solve::Query;

/// What is asked about the problem that a file describes.
#[derive(Clone, Copy)]
pub enum Request<'a> {
    /// Its canonical text.
    Show,
    /// The answer to a query.
    Solve(Query),
    /// A cheapest spanning arborescence with weighted vertex sets that prove it.
    Cuts,
    /// Whether a certificate is right.
    Check {
        /// The name of the certificate's file.
        certificate: &'a str,
    },
    /// A witness for a rung of a certificate.
    Witness {
        /// The number of the rung, from 0 to 500.
        rung: u32,
        /// The name of the certificate's file.
        certificate: &'a str,
    },
    /// Whether a witness shows a rung of a certificate.
    Verify {
        /// The number of the rung, from 0 to 500.
        rung: u32,
        /// The name of the certificate's file.
        certificate: &'a str,
        /// The name of the witness's file.
        witness: &'a str,
    },
}

/// What the words of a command line ask for.
#[derive(Clone, Copy)]
pub enum Command<'a> {
    /// Something about the problem that a file describes.
    About {
        /// The name of the description's file.
        file: &'a str,
        /// What is asked about the problem.
        request: Request<'a>,
    },
    /// The summary of a right answer to a problem that is made from a number.
    Sample {
        /// The kind of the problem.
        kind: SampleKind,
        /// How many elements, edges, arcs or cells it has, from 1 to 500.
        size: u32,
        /// The number that it is made from, from 1 to 2147483646.
        seed: u64,
    },
    /// The answers to the jobs of a list.
    Batch {
        /// The name of the list's file.
        list: &'a str,
    },
    /// A description with names for its elements and its vertices.
    Convert {
        /// The name of the description's file.
        file: &'a str,
    },
}

/// A command line.
#[derive(Clone, Copy)]
pub struct CommandLine<'a> {
    /// How many workers compute the answer.
    pub workers: u32,
    /// What is asked for.
    pub command: Command<'a>,
    ghost in_range: { AreWorkers workers },
    ghost task_in_range: { IsTaskInRange (task_of command) } by { IsTaskInRange-prop (task_of command) },
}
