//! The note of a refusal.

ghost use Rattle.std.specs.Prelude.{◌≤◌, flat_map, OnOk, OnErr};
ghost use Rattle.mat_shelf.specs.{Faults.{Rose}, Writing.{Appended, AppendedProperPrefix}};
ghost use Rattle.mat_judge.specs.{Notes.{fault_note, note_of, note_of_denial, note_of_unread, IsNoted}, Texts.{piece_text}};

use crate::reading::Unread;
use crate::refusal::{Denial, Refusal};
use crate::writing::put_all;
use mat_shelf::{Failed, Sink};
use mat_words::spell_into;

// A piece of a line.
#[derive(Clone, Copy)]
enum Piece<'a> {
    // These bytes.
    Text(&'a [u8]),
    // The numeral of a number.
    Number(u32),
}

// Writes a piece, or a proper prefix of it where the sink fails.
fn put_piece<N: Sink>(notes: &mut N, piece: Piece<'_>) -> Result<(), Failed>
    ensures grows { N.faults notes.old ≤ N.faults notes.new }
    ensures ok { OnOk result (Appended (N.written notes.old) (piece_text piece.entry) (N.written notes.new)) }
    ensures err { OnErr result (AppendedProperPrefix (N.written notes.old) (piece_text piece.entry) (N.written notes.new)) }
    ensures cause { OnErr result (Rose (N.faults notes.old) (N.faults notes.new)) }
{
    match piece {
        Piece::Text(bytes) => put_all(notes, bytes),
        Piece::Number(n) => {
            let mut buffer = [0; 40];
            let at = spell_into(&mut buffer, i128::from(n));
            put_all(notes, &buffer[at..])
        }
    }
}

// Writes pieces one after the other, or a proper prefix of them where the sink fails.
fn put_pieces<N: Sink>(notes: &mut N, pieces: &[Piece<'_>]) -> Result<(), Failed>
    ensures grows { N.faults notes.old ≤ N.faults notes.new }
    ensures ok { OnOk result (Appended (N.written notes.old) (flat_map piece_text pieces.now) (N.written notes.new)) }
    ensures err { OnErr result (AppendedProperPrefix (N.written notes.old) (flat_map piece_text pieces.now) (N.written notes.new)) }
    ensures cause { OnErr result (Rose (N.faults notes.old) (N.faults notes.new)) }
{
    for piece in pieces {
        put_piece(notes, *piece)?;
    }
    Ok(())
}

// Writes the pieces of a line, or a prefix of them where the sink fails.
fn put_line<N: Sink>(notes: &mut N, pieces: &[Piece<'_>])
    ensures { IsNoted (flat_map piece_text pieces.now) (N.written notes.old) (N.faults notes.old) (N.written notes.new) (N.faults notes.new) }
{
    let _ = put_pieces(notes, pieces);
}

// Writes a whole line, or a prefix of it where the sink fails.
fn put_text<N: Sink>(notes: &mut N, line: &[u8])
    ensures { IsNoted line.now (N.written notes.old) (N.faults notes.old) (N.written notes.new) (N.faults notes.new) }
{
    let _ = put_all(notes, line);
}

// Writes the note of a fault of a file.
fn put_fault<'a, N: Sink>(notes: &mut N, file: &'a [u8], kind: u32, name: &'a str, line: u32)
    ensures { IsNoted (fault_note file.now kind name.now line)
        (N.written notes.old) (N.faults notes.old) (N.written notes.new) (N.faults notes.new) }
{
    put_line(
        notes,
        &[
            Piece::Text(file),
            Piece::Number(kind),
            Piece::Text(b" "),
            Piece::Text(name.as_bytes()),
            Piece::Text(b" line "),
            Piece::Number(line),
            Piece::Text(b"\n"),
        ],
    );
}

// Writes the note of a file that was not read.
fn put_unread<N: Sink>(notes: &mut N, unread: Unread)
    ensures { IsNoted (note_of_unread unread) (N.written notes.old) (N.faults notes.old) (N.written notes.new) (N.faults notes.new) }
{
    match unread {
        Unread::Fault => put_text(notes, b"refused: read fault\n"),
        Unread::TooLong => put_text(notes, b"refused: too long\n"),
        Unread::Memory => put_text(notes, b"refused: memory\n"),
    }
}

// Writes the note of what the files of a call say against it.
fn put_denial<N: Sink>(notes: &mut N, denial: Denial)
    ensures { IsNoted (note_of_denial denial) (N.written notes.old) (N.faults notes.old) (N.written notes.new) (N.faults notes.new) }
{
    match denial {
        Denial::No(reason, first, second) => put_line(
            notes,
            &[
                Piece::Text(b"no "),
                Piece::Text(reason.word().as_bytes()),
                Piece::Text(b" "),
                Piece::Number(first),
                Piece::Text(b" "),
                Piece::Number(second),
                Piece::Text(b"\n"),
            ],
        ),
        Denial::NotShown(part) => put_line(
            notes,
            &[
                Piece::Text(b"no witness "),
                Piece::Number(part),
                Piece::Text(b" 0\n"),
            ],
        ),
        Denial::BadDescription(kind, line) => {
            let file = b"refused: description ";
            put_fault(notes, file, kind.number(), kind.name(), line)
        }
        Denial::BadCertificate(kind, line) => {
            let file = b"refused: certificate ";
            put_fault(notes, file, kind.number(), kind.name(), line)
        }
        Denial::WrongShape => put_text(notes, b"refused: wrong shape\n"),
        Denial::Unwitnessed => put_text(notes, b"refused: unwitnessed\n"),
        Denial::BadWitness(kind, line) => {
            let file = b"refused: witness ";
            put_fault(notes, file, kind.number(), kind.name(), line)
        }
        Denial::BadCost => put_text(notes, b"refused: bad cost\n"),
        Denial::BadList(line) => put_line(
            notes,
            &[
                Piece::Text(b"refused: list line "),
                Piece::Number(line),
                Piece::Text(b"\n"),
            ],
        ),
    }
}

/// Writes the note of a refusal, or a prefix of it where the sink fails. It takes no memory.
pub fn put_note<N: Sink>(notes: &mut N, refusal: Refusal)
    ensures { IsNoted (note_of refusal) (N.written notes.old) (N.faults notes.old) (N.written notes.new) (N.faults notes.new) }
{
    match refusal {
        Refusal::Usage => put_text(notes, b"refused: usage\n"),
        Refusal::WriteFault => put_text(notes, b"refused: write fault\n"),
        Refusal::Unread(unread) => put_unread(notes, unread),
        Refusal::Denied(denial) => put_denial(notes, denial),
    }
}
