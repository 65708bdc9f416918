//! The words of a log, with a draft that waits.

ghost use Rattle.std.specs.Prelude.{◌≡◌, ◌≤◌, ◌*◌, ◌+◌, List, length};
ghost use Rattle.op_model.specs.declared.base.Base.{Base};
ghost use Rattle.op_model.specs.declared.entry.Entry.{Entry};
ghost use Rattle.record_rows.specs.Readings.{Image};
ghost use Rattle.stored_log.specs.Stored.{Stands, at_rest};

use op_model::Dataset;
use pcg_base::VecWords;
use row_words::Draft;

/// The records of a log in memory.
#[derive(Drop)]
pub struct StoredLog {
    /// The words of the records, with room for all further records of the dataset's capacity.
    pub words: VecWords,
    /// What is fixed for the log.
    pub dataset: Dataset,
    /// The records of an entry that isn't committed yet, if there is one.
    pub draft: Option<Draft>,
}

impl StoredLog {
    /// The log that these words stand for, with no draft. It takes no memory.
    pub fn new(words: VecWords, dataset: Dataset) -> StoredLog
        ensures rest { result ≡ at_rest words dataset }
        ensures stands { (b : Base) (log : List Entry) → Image dataset b log words.words → 8 * dataset.capacity ≤ length words.words + words.spare → Stands result dataset b log }
    {
        StoredLog {
            words,
            dataset,
            draft: None,
        }
    }

    /// The words. A draft that waits is let go. It takes no memory.
    pub fn into_words(self) -> VecWords
        ensures { result ≡ self.words }
    {
        let StoredLog { words, .. } = self;
        words
    }
}
