//! The names of clients' files.

ghost use Rattle.std.specs.Prelude.{◌≡◌, ◌++◌, ◌∷◌, [], map, IfOk, OnOk};
ghost use Rattle.pcg_words.specs.Job.{answer_file, request_file};

use pcg_base::NoMemory;
use pcg_words::{Name, Names, answer_file, request_file};
use std::alloc::Global;

/// The names of the files of all clients, in their order.
#[derive(Drop)]
pub struct ClientFiles {
    /// The files of their requests.
    pub requests: Names,
    /// The files of their answers.
    pub answers: Names,
}

/// Puts a name behind others.
fn put(names: &mut Vec<Name>, name: Name) -> Result<(), NoMemory>
    ensures { OnOk result (names.new.items ≡ names.old.items ++ name ∷ []) }
{
    let Ok(()) = names.push(name) else {
        return Err(NoMemory);
    };
    Ok(())
}

/// The names of the files of requests.
fn requests_of(alloc: Global, stems: &[Name]) -> Result<Vec<Name>, NoMemory>
    ensures { IfOk result (λ names. names.items ≡ map request_file stems.now) }
{
    let mut names = Vec::new(alloc);
    for stem in stems {
        let name = request_file(alloc, stem)?;
        put(&mut names, name)?;
    }
    Ok(names)
}

/// The names of the files of answers.
fn answers_of(alloc: Global, stems: &[Name]) -> Result<Vec<Name>, NoMemory>
    ensures { IfOk result (λ names. names.items ≡ map answer_file stems.now) }
{
    let mut names = Vec::new(alloc);
    for stem in stems {
        let name = answer_file(alloc, stem)?;
        put(&mut names, name)?;
    }
    Ok(names)
}

/// The names of the files of clients with these stems.
///
/// # Errors
///
/// `NoMemory` where there is none for the names.
pub fn client_files(alloc: Global, stems: &Names) -> Result<ClientFiles, NoMemory>
    ensures requests { IfOk result (λ f. f.requests ≡ map request_file stems.now) }
    ensures answers { IfOk result (λ f. f.answers ≡ map answer_file stems.now) }
{
    let requests = requests_of(alloc, stems.list.as_slice())?;
    let answers = answers_of(alloc, stems.list.as_slice())?;
    Ok(ClientFiles {
        requests: Names { list: requests },
        answers: Names { list: answers },
    })
}
