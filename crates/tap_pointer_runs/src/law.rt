ghost use Rattle.tap_safe_runs.specs.SafeLogs.{OfLawfulLogs};
ghost use Rattle.tap_safe_runs.specs.Moments.{AtEachMoment};
ghost use Rattle.tap_pointer_runs.specs.Paths.{KnownWerePublished, PointersOnTheirPaths, PointersStandIn, PublishedAreServed};
ghost use Rattle.tap_pointer_runs.specs.Alone.{LookupsAloneAreExact};
ghost use Rattle.tap_pointer_runs.specs.AnsweredOnce.{LookupsAreAnswered};
ghost use Rattle.tap_pointer_runs.specs.LookupAnswers.{AnswersWerePublished, LookupsGoToCoreIn};
ghost use Rattle.tap_pointer_runs.specs.NoServer.{AnsweredNoneWereDisturbed, LookupsEndWithoutServer};

/// At each moment of a run pointers stand in its system: where a node has laid a pair, the last Lay that it has sent there says so, on its way
/// or in a register, and where it has laid none the last Lay is off.
///
/// It does nothing: its contract is the law.
///
/// Rule: docs/FORMATS.md, "The course of a run", and docs/PROTOCOL.md, "Pointers".
pub fn run_pointers_law()
    ensures { AtEachMoment PointersStandIn }
{}

/// At each moment of a run the pairs that its log has as published are those whose server publishes their object.
///
/// It does nothing: its contract is the law.
///
/// Rule: docs/FORMATS.md, "The course of a run".
pub fn published_law()
    ensures { AtEachMoment PublishedAreServed }
{}

/// At each moment of a run each pair that a node publishes, of which a register has a word, or of which a Lay is on its way, is one that the
/// log has published, be it withdrawn later or not.
///
/// It does nothing: its contract is the law.
///
/// Rule: docs/FORMATS.md, "The course of a run".
pub fn known_pairs_law()
    ensures { AtEachMoment KnownWerePublished }
{}

/// At each rest of a run pointers stand exactly on their paths: a node holds a pair exactly if the log has it as published and the node is one
/// of those of the walk of its object from its server.
///
/// It does nothing: its contract is the law.
///
/// Rule: docs/FORMATS.md, "The course of a run", and docs/PROTOCOL.md, "Pointers".
pub fn run_paths_law()
    ensures { AtEachMoment PointersOnTheirPaths }
{}

/// So it is in the log of each run of a scenario that isn't over, up to each of its moments.
///
/// It does nothing: its contract is the law.
///
/// Rule: docs/FORMATS.md, "What comes next" and "The course of a run".
pub fn lawful_paths_law()
    ensures published { OfLawfulLogs PublishedAreServed }
    ensures paths { OfLawfulLogs PointersOnTheirPaths }
{}

/// At each moment of a run the lookups that are under way in its system go to core nodes.
///
/// It does nothing: its contract is the law.
///
/// Rule: docs/FORMATS.md, "The course of a run", and docs/PROTOCOL.md, "Find" and "Answer".
pub fn run_lookups_law()
    ensures { AtEachMoment LookupsGoToCoreIn }
{}

/// Each lookup is answered once: the log of a run asks for one lookup at most under a ticket, and answers it no more often than it asks for it; and
/// at rest it has answered each lookup that it has asked for. So it is in the log of each run of a scenario that isn't over, up to each of
/// its moments.
///
/// It does nothing: its contract is the law.
///
/// Rule: docs/FORMATS.md, "What comes next" and "The course of a run", and docs/PROTOCOL.md, "Find" and "Answer".
pub fn answered_once_law()
    ensures runs { AtEachMoment LookupsAreAnswered }
    ensures lawful { OfLawfulLogs LookupsAreAnswered }
{}

/// However lookups overlap, each answer in the log of a run is one of a lookup that the log has asked before; and if it names a server, the log
/// has published the pair of the object that was asked for and this server before. So it is in the log of each run of a scenario that isn't
/// over, up to each of its moments.
///
/// It does nothing: its contract is the law.
///
/// Rule: docs/FORMATS.md, "What comes next" and "The course of a run", and docs/PROTOCOL.md, "Find" and "Answer".
pub fn answers_law()
    ensures runs { AtEachMoment AnswersWerePublished }
    ensures lawful { OfLawfulLogs AnswersWerePublished }
{}

/// A lookup made alone is exact: if it is accepted at a rest of a run, and no other start between then and an answer, the answer is its own,
/// and names the server of a pair of its object that was published at that rest, and none only if there was no such pair. So it is in the log of
/// each run of a scenario that isn't over, up to each of its moments.
///
/// It does nothing: its contract is the law.
///
/// Rule: docs/FORMATS.md, "What comes next" and "The course of a run", and docs/PROTOCOL.md, "Find" and "Answer".
pub fn alone_law()
    ensures runs { AtEachMoment LookupsAloneAreExact }
    ensures lawful { OfLawfulLogs LookupsAloneAreExact }
{}

/// However lookups overlap, one is answered without a server only if the last node that it reached held no pair of its object then, and had no
/// next hop for it. And then at some moment, from the end of the group that asked for it to the end of the group that answered it, no pair of
/// its object was published, or a frame was outstanding that is of no lookup. So it is in the log of each run of a scenario that isn't over, up
/// to each of its moments.
///
/// It does nothing: its contract is the law.
///
/// Rule: docs/FORMATS.md, "What comes next" and "The course of a run", and docs/PROTOCOL.md, "Find", "Answer" and "Walks".
pub fn no_server_law()
    ensures ends { AtEachMoment LookupsEndWithoutServer }
    ensures disturbed { AtEachMoment AnsweredNoneWereDisturbed }
    ensures lawful_ends { OfLawfulLogs LookupsEndWithoutServer }
    ensures lawful_disturbed { OfLawfulLogs AnsweredNoneWereDisturbed }
{}
