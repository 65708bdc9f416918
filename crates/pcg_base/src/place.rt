ghost use Rattle.std.specs.Prelude.{◌≡◌, ◌≤◌, [], true, IfOk, OnOk, OnErr, IsErrOf};
ghost use Rattle.pcg_base.specs.Causes.{Rose, added};
ghost use Rattle.pcg_base.specs.States.{PlaceState, KeepsLeft, KeepsOtherCounts, KeepsOtherLeft, StaysIn, StaysOut};
ghost use Rattle.pcg_base.specs.Told.{IsFlushed, KeepsFiles, PutsFile, PutsHeld, TellsAt, TellsTo, OpensSource, OpensSink, sinks_failed, sources_failed};

use crate::traits::{Sink, Source};

/// Why an opening gave nothing.
#[derive(Clone, Copy, Debug, PartialEq, Eq)]
pub enum PlaceError {
    /// The name could not be opened. The place's count of faults of that kind rose.
    Failed,
    /// Memory was refused.
    NoMemory,
}

/// A folder, or what stands for one: names, and bytes at them.
///
/// Beside each name stand four counts that never fall: failed openings for reading and for writing,
/// and the faults of the sources and of the sinks that were kept there. All counts stop at
/// `2^64 - 1`. A source or a sink is kept at a name that an earlier opening of its kind answered.
pub trait Place {
    /// What a name is read by.
    type In: Source + Send;

    /// What a name is written by.
    type Out: Sink + Send;

    /// What contracts see of the place: the bytes at each name, where it tells them, the counts, and
    /// which names were opened.
    ghost state: { Self → PlaceState };

    /// Opens a name for reading. `Failed` comes only where both the place's count of faults of
    /// reading and the name's count of failed openings for reading rose. Where it opens no count
    /// rises.
    fn source_of(&mut self, name: &str) -> Result<Self::In, PlaceError>
        ensures later { (state self.old).reads ≤ (state self.new).reads }
        ensures other_kind { (state self.new).writes ≡ (state self.old).writes }
        ensures failed { IsErrOf result PlaceError.Failed
            → Rose (state self.old).reads (state self.new).reads }
        ensures failed_here { IsErrOf result PlaceError.Failed
            → Rose ((state self.old).counts name.now).source_openings
            ((state self.new).counts name.now).source_openings }
        ensures still { OnOk result ((state self.new).reads ≡ (state self.old).reads) }
        ensures still_here { OnOk result ((state self.new).counts name.now
            ≡ (state self.old).counts name.now) }
        ensures only_kind { OpensSource ((state self.old).counts name.now)
            ((state self.new).counts name.now) }
        ensures only_here { KeepsOtherCounts (state self.old) (state self.new) name.now }
        ensures files { KeepsFiles (state self.old).files (state self.new).files }
        ensures left { KeepsLeft (state self.old) (state self.new) }
        ensures fresh { IfOk result (λ s. Self.In.faults s ≡ 0) }
        ensures bytes { IfOk result
            (λ s. TellsAt (state self.old).files name.now (Self.In.left s)) }
        ensures opened { OnOk result ((state self.new).opened_in name.now ≡ true) }
        ensures stays_in { StaysIn (state self.old) (state self.new) }
        ensures stays_out { StaysOut (state self.old) (state self.new) };

    /// Opens a name for writing, which has no bytes from then on. `Failed` comes only where both the
    /// place's count of faults of writing and the name's count of failed openings for writing rose.
    /// Where it opens no count rises, and no byte waits for a flush.
    fn sink_of(&mut self, name: &str) -> Result<Self::Out, PlaceError>
        ensures later { (state self.old).writes ≤ (state self.new).writes }
        ensures other_kind { (state self.new).reads ≡ (state self.old).reads }
        ensures failed { IsErrOf result PlaceError.Failed
            → Rose (state self.old).writes (state self.new).writes }
        ensures failed_here { IsErrOf result PlaceError.Failed
            → Rose ((state self.old).counts name.now).sink_openings
            ((state self.new).counts name.now).sink_openings }
        ensures still { OnOk result ((state self.new).writes ≡ (state self.old).writes) }
        ensures still_here { OnOk result ((state self.new).counts name.now
            ≡ (state self.old).counts name.now) }
        ensures only_kind { OpensSink ((state self.old).counts name.now)
            ((state self.new).counts name.now) }
        ensures only_here { KeepsOtherCounts (state self.old) (state self.new) name.now }
        ensures made { OnOk result
            (PutsFile (state self.old).files (state self.new).files name.now []) }
        ensures unmade { OnErr result (KeepsFiles (state self.old).files (state self.new).files) }
        ensures left { KeepsLeft (state self.old) (state self.new) }
        ensures fresh { IfOk result (λ k. (Self.Out.state k).faults ≡ 0) }
        ensures empty { IfOk result
            (λ k. TellsTo (state self.old).files (Self.Out.state k).held []) }
        ensures flushed { IfOk result
            (λ k. IsFlushed (Self.Out.state k).held (Self.Out.state k).flushed) }
        ensures opened { OnOk result ((state self.new).opened_out name.now ≡ true) }
        ensures stays_in { StaysIn (state self.old) (state self.new) }
        ensures stays_out { StaysOut (state self.old) (state self.new) };

    /// Keeps a source back at its name: adds its faults to the counts, and notes what it has left.
    fn keep_in(&mut self, name: &str, source: Self::In)
        requires { (state self.old).opened_in name.now ≡ true }
        ensures later { (state self.old).reads ≤ (state self.new).reads }
        ensures total { (state self.new).reads
            ≡ added (state self.old).reads (Self.In.faults source) }
        ensures other_kind { (state self.new).writes ≡ (state self.old).writes }
        ensures here { (state self.new).counts name.now
            ≡ sources_failed ((state self.old).counts name.now) (Self.In.faults source) }
        ensures later_here { ((state self.old).counts name.now).source_faults
            ≤ ((state self.new).counts name.now).source_faults }
        ensures only_here { KeepsOtherCounts (state self.old) (state self.new) name.now }
        ensures files { KeepsFiles (state self.old).files (state self.new).files }
        ensures left { TellsTo (state self.old).files (Self.In.left source)
            ((state self.new).left name.now) }
        ensures only_left { KeepsOtherLeft (state self.old) (state self.new) name.now }
        ensures stays_in { StaysIn (state self.old) (state self.new) }
        ensures stays_out { StaysOut (state self.old) (state self.new) };

    /// Keeps a sink back at its name: adds its faults to the counts, and puts its bytes there.
    fn keep_out(&mut self, name: &str, sink: Self::Out)
        requires { (state self.old).opened_out name.now ≡ true }
        ensures later { (state self.old).writes ≤ (state self.new).writes }
        ensures total { (state self.new).writes
            ≡ added (state self.old).writes (Self.Out.state sink).faults }
        ensures other_kind { (state self.new).reads ≡ (state self.old).reads }
        ensures here { (state self.new).counts name.now
            ≡ sinks_failed ((state self.old).counts name.now) (Self.Out.state sink).faults }
        ensures later_here { ((state self.old).counts name.now).sink_faults
            ≤ ((state self.new).counts name.now).sink_faults }
        ensures only_here { KeepsOtherCounts (state self.old) (state self.new) name.now }
        ensures bytes { PutsHeld (state self.old).files (state self.new).files name.now
            (Self.Out.state sink).held }
        ensures left { KeepsLeft (state self.old) (state self.new) }
        ensures stays_in { StaysIn (state self.old) (state self.new) }
        ensures stays_out { StaysOut (state self.old) (state self.new) };
}
