ghost use Rattle.tap_bounds_runs.specs.AtRest.{LookupsAtRestSendFew, PublicationsAtRestSendFew};
ghost use Rattle.tap_bounds_runs.specs.Enough.{EndsFinished, NeverSpent, RunsAreNeverSpent, RunsEndFinished};
ghost use Rattle.tap_bounds_runs.specs.Few.{FramesAreFew, FramesAreKnown};
ghost use Rattle.tap_bounds_runs.specs.Joins.{JoinsSendFew, RunJoinsSendFew};
ghost use Rattle.tap_safe_runs.specs.SafeLogs.{OfLawfulLogs};
ghost use Rattle.tap_safe_runs.specs.Moments.{AtEachMoment};

/// At each moment of a run the frames that its moves have sent and taken are those of its log: the log has a `Sent` record with the bytes
/// of each that was sent, one after another, and a `Taken` record with the number of each that was taken. And each that was sent was taken,
/// or is under way. So it is in the log of each run of a scenario.
///
/// It does nothing: its contract is the law.
///
/// Rule: docs/FORMATS.md, "The course of a run".
pub fn known_frames_law()
    ensures runs { AtEachMoment FramesAreKnown }
    ensures lawful { OfLawfulLogs FramesAreKnown }
{}

/// At each moment of a run the Seeks, Tells, Acks, Hellos, Heards and Dones of its log are as few, of each joiner and of each two nodes, as
/// `few_moves_law`, `tells_law`, `acks_law`, `hellos_law` and `dones_law` of `tap_bounds` say. So it is in the log of each run of a scenario.
///
/// It does nothing: its contract is the law.
///
/// Rule: docs/PROTOCOL.md, "Seek", "Tell", "Hello", "Heard and Ack" and "Done".
pub fn few_frames_law()
    ensures runs { AtEachMoment FramesAreFew }
    ensures lawful { OfLawfulLogs FramesAreFew }
{}

/// In a run of moves, or of a log, in which nothing but joins is started, at most `J * (16 * (N + 1) * (N + 1) + n + 2)` frames are sent,
/// with J the number of joins, N that of all names that were ever present and n that of the digits of names. So it is at each moment of
/// each run in which no publication, withdrawal, lookup, departure, abandonment or cast is accepted, and of each run of a scenario.
///
/// It does nothing: its contract is the law.
///
/// Rule: docs/PROTOCOL.md, "Joining".
pub fn join_frames_law()
    ensures moves { RunJoinsSendFew }
    ensures runs { AtEachMoment JoinsSendFew }
    ensures lawful { OfLawfulLogs JoinsSendFew }
{}

/// No run, carried or not, of a scenario in which nothing but joins is started is over because more frames would be sent than may be, if as
/// many may be as its joins send at most: with J the number of its join steps, `J * (16 * (N + 1) * (N + 1) + n + 2)`, and N that of its
/// members and join steps. So its whole log says that all its steps were run.
///
/// It does nothing: its contract is the law.
///
/// Rule: docs/FORMATS.md, "The ways a run ends".
pub fn enough_frames_law()
    ensures spent { NeverSpent }
    ensures finished { EndsFinished }
    ensures runs { RunsAreNeverSpent }
    ensures whole { RunsEndFinished }
{}

/// In a run a lookup that is accepted at a rest, and all that is taken after it, sends at most one frame more than names have digits, if no
/// other start is accepted meanwhile; and a publication at most as many frames as names have digits. So it is in the log of each run of a
/// scenario.
///
/// It does nothing: its contract is the law.
///
/// Rule: docs/PROTOCOL.md, "Find", "Answer" and "Lay".
pub fn at_rest_frames_law()
    ensures lookups { AtEachMoment LookupsAtRestSendFew }
    ensures publications { AtEachMoment PublicationsAtRestSendFew }
    ensures lawful_lookups { OfLawfulLogs LookupsAtRestSendFew }
    ensures lawful_publications { OfLawfulLogs PublicationsAtRestSendFew }
{}
