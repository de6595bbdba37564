//! The words that a program was started with, and the deck that the only word names.
ghost use Rattle.std.specs.Prelude.{◌≡◌, IfOk, IfErr};
ghost use Rattle.pc_deck.specs.Limits.{longest_deck};
ghost use Rattle.pc_edges.specs.Pulls.{IsReadWithin};
ghost use Rattle.pc_edges.specs.declared.loading.TheConstants.{STREAM_ROOM};
ghost use Rattle.pc_project.specs.inside.shell.OneWord.{EndsWithout, IsProjectNamed};
ghost use Rattle.pc_project.specs.shell.Sides.{side};

use crate::Project;
use crate::shell::reading::{NoProject, read_project};
use crate::shell::sending::{refuse, send};
use crate::shell::status::Status;
use pc_edges::{Failed, FileSource, Sink, Source, draw_key};
use std::alloc::{AllocError, Global};
use std::env;
use std::fs::File;
use std::io::ErrorKind;
use std::random::RandomSource;
use std::rt::{Env, Files};

/// Returns the words after the program's name, or no words if one of them is not UTF-8: no form has such a word.
///
/// # Errors
///
/// `AllocError` if memory runs out.
pub fn words_of<R: Env + AllocGlobal>(rt: &R) -> Result<Vec<String>, AllocError> {
    match env::args(rt) {
        Ok(args) => args.skip(1).collect(rt.alloc()),
        Err(e) if e.kind() == ErrorKind::OutOfMemory => Err(AllocError),
        Err(_) => Ok(Vec::new(rt.alloc())),
    }
}

/// Returns the source of the deck that the only word names, with a key that it draws. If there is not exactly one word,
/// no file is opened.
pub fn deck_file<R: Files<File = File> + RandomSource>(rt: &R, words: &[String]) -> FileSource
    ensures faults { ⟦<FileSource as Source>⟧.faults result ≡ 0 }
{
    let deck = match words {
        [word] => FileSource::at(rt, word.as_str()),
        _ => FileSource::missing(),
    };
    deck.with_key(draw_key(rt))
}

/// Returns the project of the deck that the one word names.
///
/// It pulls as [`load_deck`](crate::shell::load_deck) does.
///
/// # Errors
///
/// The status with which the call ends. If there is not exactly one word, nothing is read and `err` gets the usage
/// line; if the deck is refused, `err` gets the line of its fault.
pub fn project_named<D: Source, E: Sink>(
    alloc: Global,
    words: &[String],
    usage: &[u8],
    deck: &mut D,
    err: &mut E,
) -> Result<Project, Status>
    ensures project { IfOk result (IsProjectNamed words.now (side D.left D.faults deck.old deck.new)
        (side E.taken E.faults err.old err.new)) }
    ensures none { IfErr result (EndsWithout words.now usage.now (side D.left D.faults deck.old deck.new)
        (side E.taken E.faults err.old err.new)) }
    ensures stops { IsReadWithin longest_deck STREAM_ROOM D.left D.faults D.pulls deck.old deck.new }
{
    if words.len() != 1 {
        return match send(err, usage) {
            Ok(()) => Err(Status::Usage),
            Err(Failed) => Err(Status::WriteFault),
        };
    }
    match read_project(alloc, deck) {
        Ok(project) => Ok(project),
        Err(NoProject::Refused(fault)) => Err(refuse(alloc, &fault, err)),
        Err(NoProject::ReadFault) => Err(Status::ReadFault),
        Err(NoProject::OutOfMemory) => Err(Status::OutOfMemory),
    }
}
