//! Real files as a shelf. What they hold is told to nobody; each kind of answer but a content is counted.

ghost use Rattle.std.specs.Prelude.{◌≡◌, ℕ, ◌≤◌, ◌↔◌, List, None, Result, IfOk, IsErrAnd, IsErrOf, length, ⊤};
ghost use Rattle.std.specs.declared.io.Error.{Error};
ghost use Rattle.std.specs.IoError.{error_kind};
ghost use Rattle.ecf_edge.specs.Shelf.{faults_after_fetch, long_answers_after_fetch, absences_after_fetch};
ghost use Rattle.ecfhost.specs.FileShelf.{fresh_shelf, counts_after, fault_of_kind, IsContentOf, IsAnswerTo, IsOneFetch};

use crate::stream::Input;
use ecf_edge::{Fetch, Shelf, Source, count_up, read_all};
use std::alloc::Global;
use std::fs::File;
use std::io::{self, ErrorKind};
use std::marker::Model;

/// What opens files by their paths.
pub trait Opener {
    /// A file that was opened.
    type Opened: Source + Drop;

    /// What may come of opening a path: the opener before and after it, the path, and the answer.
    ghost opens: { Self → Self → List ℕ → Result Self.Opened Error → Type 0 };

    /// Opens the file that has this path once, to be read from its start.
    fn open(&mut self, path: &str) -> io::Result<Self::Opened>
        ensures { opens self.old self.new path.now result };
}

impl Opener for &HostRuntime {
    type Opened = Input<File>;

    // What comes of it is the system's to say.
    ghost opens = { λ _ _ _ _. ⊤ };

    fn open(&mut self, path: &str) -> io::Result<Input<File>> {
        Ok(Input::new(File::open(*self, path)?))
    }
}

/// The files that an opener opens, by their paths.
#[derive(Drop)]
pub struct FileShelf<O> {
    opener: O,
    faults: u64,
    long_answers: u64,
    absences: u64,
}

impl<O> Model for FileShelf<O> {
    ghost use Rattle.ecfhost.specs.FileShelf.{OpeningShelf};

    ghost Value = { OpeningShelf O };

    ghost view = { λ s. record { opener = s.opener; counts = record { faults = s.faults; long_answers = s.long_answers; absences = s.absences } } };
}

impl<O: Opener> FileShelf<O> {
    /// A shelf from which nothing was fetched yet.
    pub fn new(opener: O) -> Self
        ensures { result ≡ fresh_shelf opener }
    {
        FileShelf {
            opener,
            faults: 0,
            long_answers: 0,
            absences: 0,
        }
    }
}

impl<O: Opener> Shelf for FileShelf<O> {
    ghost contents = { λ _. None };

    ghost faults = { λ s. s.counts.faults };

    ghost long_answers = { λ s. s.counts.long_answers };

    ghost absences = { λ s. s.counts.absences };

    fn fetch(&mut self, alloc: Global, name: &str, most: usize) -> Result<Vec<u8>, Fetch>
        ensures once { IsOneFetch O.Opened.Source (O.opens self.old.opener self.new.opener name.now) most result }
        ensures counts { self.new.counts ≡ counts_after self.old.counts result }

        ensures bound { IfOk result (λ v. length v.items ≤ most) }
        ensures faults_counted { self.new.counts.faults ≡ faults_after_fetch self.old.counts.faults result }
        ensures long_answers_counted { self.new.counts.long_answers ≡ long_answers_after_fetch self.old.counts.long_answers result }
        ensures absences_counted { self.new.counts.absences ≡ absences_after_fetch self.old.counts.absences result }
    {
        let content = content_if_opened(alloc, self.opener.open(name), most);
        match content {
            Err(Fetch::Failed) => count_up(&mut self.faults),
            Err(Fetch::TooLong) => count_up(&mut self.long_answers),
            Err(Fetch::Missing) => count_up(&mut self.absences),
            _ => {}
        }
        content
    }
}

// The content of what was opened, where it has at most `most` bytes, or why there is none.
fn content_if_opened<S: Source + Drop>(
    alloc: Global,
    opened: io::Result<S>,
    most: usize,
) -> Result<Vec<u8>, Fetch>
    ensures answer { IsAnswerTo S.Source opened most result }
    ensures missing { IsErrOf result Fetch.Missing ↔ IsErrAnd opened (λ error. error_kind error ≡ ErrorKind.NotFound) }
    ensures bound { IfOk result (λ bytes. length bytes.items ≤ most) }
{
    match opened {
        Ok(mut source) => content_of(alloc, &mut source, most),
        Err(error) => Err(fault_of(error)),
    }
}

// The content of a source, where it has at most `most` bytes, or why there is none.
fn content_of<S: Source>(alloc: Global, source: &mut S, most: usize) -> Result<Vec<u8>, Fetch>
    ensures { IsContentOf S.Source source.old source.new most result }
{
    let reading = read_all(alloc, source, most)?;
    Ok(reading.whole()?)
}

// What the system's error at the opening of a file means.
fn fault_of(error: io::Error) -> Fetch
    ensures { result ≡ fault_of_kind (error_kind error) }
{
    match error.kind() {
        ErrorKind::NotFound => Fetch::Missing,
        ErrorKind::OutOfMemory => Fetch::NoMemory,
        _ => Fetch::Failed,
    }
}
