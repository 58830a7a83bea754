//! What the words of the program's command line ask for.

ghost use Rattle.std.specs.Prelude.{◌≡◌, ◌∷◌, [], map, string_bytes};
ghost use Rattle.mat_program.specs.{Tasks.{text_task, report_task, program_task}, Views.{task_of}};

/// What `--help` and `--version` print.
#[derive(Clone, Copy)]
pub struct Texts<'a> {
    /// The text of `--help`.
    pub help: &'a str,
    /// The text of `--version`.
    pub version: &'a str,
}

/// What the words ask for.
#[derive(Clone, Copy)]
pub(crate) enum ProgramTask<'a> {
    /// To print this text.
    Print(&'a str),
    /// To tell in words the answer that the certificate of the second name has to the problem of the first.
    Tell(&'a str, &'a str),
    /// To draw that answer.
    Draw(&'a str, &'a str),
    /// What the top call does by these words.
    Call(&'a [String]),
}

// What a word alone asks for; these are the words.
fn text_task<'a>(texts: &Texts<'a>, word: &str, words: &'a [String]) -> ProgramTask<'a>
    ensures { task_of result ≡ text_task texts.now.help.now texts.now.version.now word.now (map string_bytes words.now) }
{
    match word {
        "--help" => ProgramTask::Print(texts.help),
        "--version" => ProgramTask::Print(texts.version),
        _ => ProgramTask::Call(words),
    }
}

// What a word and two names behind it ask for; these are the words.
fn report_task<'a>(
    word: &str,
    description: &'a str,
    certificate: &'a str,
    words: &'a [String],
) -> ProgramTask<'a>
    ensures { task_of result ≡ report_task word.now description.now certificate.now (map string_bytes words.now) }
{
    match word {
        "--tell" => ProgramTask::Tell(description, certificate),
        "--picture" => ProgramTask::Draw(description, certificate),
        _ => ProgramTask::Call(words),
    }
}

/// What the words ask for. It takes no memory.
pub(crate) fn program_task<'a>(texts: &Texts<'a>, words: &'a [String]) -> ProgramTask<'a>
    ensures { task_of result ≡ program_task texts.now.help.now texts.now.version.now (map string_bytes words.now) }
{
    match words {
        [word] => text_task(texts, word.as_str(), words),
        [word, description, certificate] => report_task(
            word.as_str(),
            description.as_str(),
            certificate.as_str(),
            words,
        ),
        _ => ProgramTask::Call(words),
    }
}
