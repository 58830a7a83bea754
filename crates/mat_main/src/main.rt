//! The program `matbench`: what its words ask for, over the real files and streams.
#![tactic(auto)]

ghost use Rattle.std.specs.Io.{WritesAtMost};

mod help;

use crate::help::TEXTS;
use mat_program::end_on_host;
use std::alloc::{AllocError, Global};
use std::env::{Env, FillError};
use std::process::ExitCode;
use std::{env, io};

// The arguments behind the program's name.
#[derive(Drop)]
struct BehindName<'a, E> {
    env: &'a E,
}

impl<E: Env> Env for BehindName<'_, E> {
    fn arg(&self, i: usize, buf: &mut [u8]) -> Result<usize, FillError> {
        self.env.arg(i.saturating_add(1), buf)
    }

    fn var(&self, name: &str, buf: &mut [u8]) -> Result<usize, FillError> {
        self.env.var(name, buf)
    }

    fn var_at(&self, i: usize, buf: &mut [u8]) -> Result<usize, FillError> {
        self.env.var_at(i, buf)
    }
}

// The words behind the program's name: none where one is not UTF-8, and no words are no command.
fn words_of<E: Env>(env: &E, alloc: Global) -> Result<Vec<String>, AllocError> {
    match env::args(&(BehindName { env }, alloc)) {
        Ok(args) => {
            let mut words = Vec::new(alloc);
            for word in args {
                words.push(word)?;
            }
            Ok(words)
        }
        Err(e) if e.kind() == io::ErrorKind::OutOfMemory => Err(AllocError),
        Err(_) => Ok(Vec::new(alloc)),
    }
}

fn main(rt: HostRuntime) -> ExitCode {
    end_on_host(&rt, &rt, &TEXTS, words_of(&rt, rt.alloc()))
}

#[cfg(test)]
mod tests {
    use super::*;

    // A program's name and words.
    #[derive(Drop)]
    struct Given<'a> {
        arguments: &'a [&'a [u8]],
    }

    impl Env for Given<'_> {
        fn arg(&self, i: usize, buf: &mut [u8]) -> Result<usize, FillError> {
            let Some(argument) = self.arguments.get(i) else {
                return Err(FillError::NotPresent);
            };
            let Some(start) = buf.get_mut(..argument.len()) else {
                return Err(FillError::TooLong);
            };
            start.copy_from_slice(argument);
            Ok(argument.len())
        }

        fn var(&self, _name: &str, _buf: &mut [u8]) -> Result<usize, FillError> {
            Err(FillError::NotPresent)
        }

        fn var_at(&self, _i: usize, _buf: &mut [u8]) -> Result<usize, FillError> {
            Err(FillError::NotPresent)
        }
    }

    // Whether these are the words behind the name.
    fn gives(rt: &HostRuntime, arguments: &[&[u8]], words: &[&str]) -> bool {
        match words_of(&Given { arguments }, rt.alloc()) {
            Ok(found) => found
                .iter()
                .map(|word| word.as_str())
                .eq(words.iter().copied()),
            Err(_) => false,
        }
    }

    #[test]
    fn the_words_are_those_behind_the_name(rt: HostRuntime) {
        assert!(rt;
            gives(
                &rt,
                &[b"matbench", b"verify", b"1", b"-", b"a b", b""],
                &["verify", "1", "-", "a b", ""]
            )
        );
        assert!(rt; gives(&rt, &[b"matbench"], &[]));
        assert!(rt; gives(&rt, &[], &[]));
    }

    #[test]
    fn a_name_that_is_not_utf8_does_no_harm(rt: HostRuntime) {
        assert!(rt; gives(&rt, &[b"m\xfcller", b"--version"], &["--version"]));
    }

    #[test]
    fn a_word_that_is_not_utf8_leaves_none(rt: HostRuntime) {
        assert!(rt; gives(&rt, &[b"matbench", b"show", b"m\xfcller"], &[]));
    }

    #[test]
    fn the_word_of_a_test_is_no_command(rt: HostRuntime) {
        let end = end_on_host(&rt, &rt, &TEXTS, words_of(&rt, rt.alloc()));
        assert_eq!(rt; end, ExitCode::from(2));
    }

    #[test]
    fn version_is_a_name_and_a_number(rt: HostRuntime) {
        assert_eq!(rt; TEXTS.version, "matbench 1.4.0\n");
    }

    #[test]
    fn help_names_each_command_line_and_status(rt: HostRuntime) {
        let parts = [
            "matbench show FILE",
            "matbench convert FILE",
            "matbench best [--workers W] FILE",
            "matbench intersect [--workers W] FILE",
            "matbench union [--workers W] FILE",
            "matbench pack [--workers W] FILE",
            "matbench cover [--workers W] FILE",
            "matbench trees [--workers W] K FILE",
            "matbench arborescence [--workers W] FILE",
            "matbench disjoint [--workers W] K FILE",
            "matbench rainbow [--workers W] FILE",
            "matbench assign [--workers W] FILE",
            "matbench cuts FILE",
            "matbench check [--workers W] FILE CERT",
            "matbench witness RUNG FILE CERT",
            "matbench verify RUNG FILE CERT WIT",
            "matbench sample [--workers W] KIND SIZE SEED",
            "matbench batch [--workers W] LIST",
            "matbench --tell FILE CERT",
            "matbench --picture FILE CERT",
            "matbench --help",
            "matbench --version",
            "\n    0  done\n    1  the certificate is not right",
            "\n    9  wrong shape: ",
            "\n   11  unwitnessed: ",
            "\n   12  bad witness: ",
            "\n   13  bad cost: ",
            "\n   14  bad list: ",
        ];
        for part in parts {
            assert!(rt; TEXTS.help.contains(part));
        }
        assert!(rt; TEXTS.help.ends_with("\n"));
    }
}
