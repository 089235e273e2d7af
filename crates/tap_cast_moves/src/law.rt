ghost use Rattle.tap_cast_moves.specs.News.{MoveNewsAreTrue};
ghost use Rattle.tap_cast_moves.specs.SoundCasts.{CastsAtRest, CastsQuietly, MoveKeepsCasts, RestClosesCasts, RunCastsAreSound};

/// The members with which an overlay begins have started no cast: of no cast is anything kept, remembered or under way.
///
/// It does nothing: its contract is the law.
///
/// Rule: docs/PROTOCOL.md, "Nodes".
pub fn casts_at_rest_law()
    ensures { CastsAtRest }
{}

/// If the whole invariant of joins holds, and what is said of casts, then each possible move keeps the latter, whatever a node starts, and
/// whatever frame is delivered to whom, if a cast that starts has a number of its own. It says that a core node keeps a cast exactly if the
/// cast has reached it; that each other name of the audience that shares as many digits with a node as the level at which this keeps the
/// cast is reached, or a Cast is on its way that serves it; that the audience stays core until the cast is closed, and has been reached
/// then; and that sessions of casts are exact, as those of joins are.
///
/// It does nothing: its contract is the law.
///
/// Rule: docs/PROTOCOL.md, "Cast" and "CastAck".
pub fn cast_moves_law()
    ensures { MoveKeepsCasts }
{}

/// While a node departs, no Cast and no CastAck is under way, no session of casts is open, and each cast is closed. So it is while no frame
/// is under way.
///
/// It does nothing: its contract is the law.
///
/// Rule: docs/PROTOCOL.md, "CastAck" and "The start of a departure".
pub fn quiet_casts_law()
    ensures departing { CastsQuietly }
    ensures rest { RestClosesCasts }
{}

/// What is said of casts holds at each moment of each run from members at rest, however many its moves are and in whichever order frames
/// are delivered, if each cast that starts has a number of its own.
///
/// It does nothing: its contract is the law.
///
/// Rule: docs/PROTOCOL.md, "Cast" and "CastAck".
pub fn cast_runs_law()
    ensures { RunCastsAreSound }
{}

/// What a node says of a cast is so, after whatever move: if the cast has reached it, it is core and begins with the prefix, and the cast
/// hadn't reached it before; if the cast is closed, it has reached each name of its audience, and wasn't closed before.
///
/// It does nothing: its contract is the law.
///
/// Rule: docs/PROTOCOL.md, "Cast" and "CastAck".
pub fn cast_news_law()
    ensures { MoveNewsAreTrue }
{}
