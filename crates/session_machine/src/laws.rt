//! Laws over all runs of the machine, each the contract of a function that does nothing. They are
//! written out in `specs/Laws.antt`. The premises of all but the first four are the dataset, the
//! base, a legal first log and allowed choices.

ghost use Rattle.session_machine.specs.Worked.{WorkedRuns};
ghost use Rattle.session_machine.specs.Laws.{AgainIsForced, BlockedStays, FinishEnds, LinesStay, ListsAreHeld, LocksAreHeld, NoneIsStuck, RepliesAreTranscripts, RunsKeepLocks, RunsKeepLog, WorkFalls, WrittenAreTranscripts};

/// Whatever the clients do, each lock and the turn have one holder, and a client holds and has
/// pinned what its phase says.
pub fn runs_keep_locks()
    ensures { RunsKeepLocks }
{}

/// While some client hasn't ended, some client may go on.
pub fn none_is_stuck()
    ensures { NoneIsStuck }
{}

/// A step of a client that may not go on changes nothing.
pub fn blocked_stays()
    ensures { BlockedStays }
{}

/// The lines taken and the lines left of each client are those that it had at the start.
pub fn lines_stay()
    ensures { LinesStay }
{}

/// The log is legal, plans stay legal, and what the clients have seen, planned and replied is as
/// the log says.
pub fn runs_keep_log()
    ensures { RunsKeepLog }
{}

/// The replies of each client, with the one that isn't written yet, are a transcript over the log.
pub fn replies_are_transcripts()
    ensures { RepliesAreTranscripts }
{}

/// But for an entry whose reply isn't written yet, the written replies alone are a transcript.
pub fn written_are_transcripts()
    ensures { WrittenAreTranscripts }
{}

/// A client begins its line again only if an entry since its look retired a root that its edit
/// touched there.
pub fn again_is_forced()
    ensures { AgainIsForced }
{}

/// A client that is past its locks holds one.
pub fn locks_are_held()
    ensures { LocksAreHeld }
{}

/// From its last lock on until it gives one back, a client holds its whole list of locks: those of
/// the roots that its edit touched at its look.
pub fn lists_are_held()
    ensures { ListsAreHeld }
{}

/// Each event of a client that may go on leaves less to do.
pub fn work_falls()
    ensures { WorkFalls }
{}

/// When the least client that may go on steps again and again, all clients end.
pub fn finish_ends()
    ensures { FinishEnds }
{}

/// Two clients that merge the same roots, and three clients by a schedule that is used up exactly.
pub fn worked_runs()
    ensures { WorkedRuns }
{}
