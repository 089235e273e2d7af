ghost use Rattle.tap_wire.specs.declared.frame.Body.TheVariants.{Heard, Ack};
ghost use Rattle.tap_rule.specs.RuleLaws.{FrameLaw, JoinerLaw, KeptLaw, LaidLaw, MemberLaw, QuietLaw, QuietStartLaw, StartKeptLaw, StartLaw, StrangeLaw, UnruledLaw, UnruledStartLaw, FitLaw};
ghost use Rattle.tap_rule.specs.RuleLaws.{AnswerLaw, CeaseLaw, DoneLaw, ForgetLaw, GoneLaw, HelloLaw, LeaveLaw, LeftLaw, LinkLaw, MeetLaw, ReleaseLaw, SeekLaw, TellLaw};
ghost use Rattle.tap_rule.specs.RuleLaws.{CastAckLaw, CastLaw, CastStartLaw, GiveUpLaw, JoiningCastLaw, LeaveStartLaw, SeekStartLaw};
ghost use Rattle.tap_rule.specs.RuleLaws.{CeasedCastLaw, CeasedLinkLaw, CeasedTellLaw, CeasedUnlinkLaw, FindLaw, FoundLaw, LayLaw, LookupLaw, PublishLaw, WithdrawLaw};
ghost use Rattle.tap_rule.specs.RuleLaws.{BeginsAtRestLaw, BeginsToJoinLaw, CastNewsLaw, CastOfLaw, HasRuleLaw, HasStartRuleLaw, LayFrameLaw, LinkFrameLaw, MessageFrameLaw, ToEachLaw, WithoutRuleLaw, WithoutStartRuleLaw};

/// What a step comes to. A strange frame changes nothing, and neither does a frame or a start of which no rule speaks. Any other event
/// leaves the node as its rule says, but that its pointers are then reconciled if it hasn't ended, and sends, in this order, the Links of
/// the rule, ascending by receiver, its other frames, and the Lays that reconciling takes. A node that ends sends the Lays of its rule in
/// their place. A frame is strange exactly if it breaks one of a few conditions.
///
/// It does nothing: its contract is the law.
///
/// Rule: docs/PROTOCOL.md, "Steps of a node".
pub fn rule_law()
    ensures strange { StrangeLaw }
    ensures unruled { UnruledLaw }
    ensures unruled_start { UnruledStartLaw }
    ensures fit { FitLaw }
    ensures frame { FrameLaw }
    ensures start { StartLaw }
{}

/// What the frames of links and answers change at a node: Release and Forget the link to their sender alone, Link the word of
/// its sender alone, Heard and Ack their session alone; and what is sent then.
///
/// It does nothing: its contract is the law.
///
/// Rule: docs/PROTOCOL.md, "Release" and "Forget" and "Link" and "Heard and Ack".
pub fn frames_law()
    ensures release { ReleaseLaw }
    ensures forget { ForgetLaw }
    ensures link { LinkLaw }
    ensures heard { AnswerLaw Heard }
    ensures ack { AnswerLaw Ack }
{}

/// What the frames of a join change at a node: a Seek is sent on or covered; a Tell pins its joiner, which is then greeted once by a
/// joining node and covered by a core node; a Hello links its names; and a Done makes a joining node core, or has it cease if its
/// join was given up. The start of a join sends a Seek, and giving it up sends nothing.
///
/// It does nothing: its contract is the law.
///
/// Rule: docs/PROTOCOL.md, "Seek", "Tell", "Covers of a node", "Hello", "Done", "The start of a join" and "Giving a join up".
pub fn joins_law()
    ensures seek { SeekLaw }
    ensures tell { TellLaw }
    ensures meet { MeetLaw }
    ensures hello { HelloLaw }
    ensures done { DoneLaw }
    ensures cease { CeaseLaw }
    ensures starts { SeekStartLaw }
    ensures gives_up { GiveUpLaw }
{}

/// What a node keeps: its ties are ties, its sessions are sessions, each session of casts has its cast, its pointers are pointers of
/// objects that are names, and the joiners that it covers and the casts that it has met ascend. A node that starts to join has this, and
/// so has a member at rest; and whatever frame with a spelling it takes, and whatever it starts, if what it publishes is a name, it keeps
/// this, its name and the settings. If each pair was laid as wanted before a step, each is after it, unless the node has ended by then.
///
/// It does nothing: its contract is the law.
///
/// Rule: docs/PROTOCOL.md, "Nodes".
pub fn kept_law()
    ensures joiner { JoinerLaw }
    ensures member { MemberLaw }
    ensures frame { KeptLaw }
    ensures start { StartKeptLaw }
    ensures laid { LaidLaw }
{}

/// What a departure changes: at its start each holder that is on is sent its notice and is awaited, and without such holders the node ends;
/// a Leave leaves the ties as `tap_depart` says, and is answered; after a Left its sender is awaited no more, and if nobody is then, the
/// node ends; and a Gone takes a link out that is no pin.
///
/// It does nothing: its contract is the law.
///
/// Rule: docs/PROTOCOL.md, "The start of a departure" and "Leave" and "Left" and "Gone".
pub fn departures_law()
    ensures leave { LeaveLaw }
    ensures left { LeftLaw }
    ensures gone { GoneLaw }
    ensures starts { LeaveStartLaw }
{}

/// Publications, lookups, casts and their frames change no link, no holder, no session of a join and no cover, and only such frames
/// are sent.
///
/// It does nothing: its contract is the law.
///
/// Rule: docs/PROTOCOL.md, "Publication and withdrawal" and "Lay" and "Find" and "Answer" and "Cast" and "CastAck".
pub fn quiet_law()
    ensures frame { QuietLaw }
    ensures start { QuietStartLaw }
{}

/// What a cast changes at a core node: a copy that is new there is sent on to its targets, in a session of its own, and its level is
/// kept; any other is answered; and the last answer of a session is passed on, or closes the cast. A joining node answers a copy.
///
/// It does nothing: its contract is the law.
///
/// Rule: docs/PROTOCOL.md, "Cast" and "CastAck".
pub fn casts_law()
    ensures cast { CastLaw }
    ensures starts { CastStartLaw }
    ensures ack { CastAckLaw }
    ensures joining { JoiningCastLaw }
{}

/// What the steps about pointers and lookups change: a Lay, a publication and a withdrawal change what is known of one pair, and nothing
/// else is sent than the Lays that this takes; a Find and the start of a lookup end at a node that holds a pair of the object or is its
/// root, and else go on; and an Answer answers the lookup.
///
/// It does nothing: its contract is the law.
///
/// Rule: docs/PROTOCOL.md, "Publication and withdrawal" and "Lay" and "Find" and "Answer".
pub fn pointers_law()
    ensures lay { LayLaw }
    ensures find { FindLaw }
    ensures answer { FoundLaw }
    ensures publishes { PublishLaw }
    ensures withdraws { WithdrawLaw }
    ensures looks_up { LookupLaw }
{}

/// What a node that has ceased does at a Tell, a Link and a Cast: it answers all but a word that there is no link any more, and changes
/// nothing.
///
/// It does nothing: its contract is the law.
///
/// Rule: docs/PROTOCOL.md, "Tell" and "Link" and "Cast".
pub fn ceased_law()
    ensures tell { CeasedTellLaw }
    ensures link { CeasedLinkLaw }
    ensures unlink { CeasedUnlinkLaw }
    ensures cast { CeasedCastLaw }
{}

/// Which frames and starts have a rule, by the status of the node: a table names for each kind of frame who takes it, and for each start
/// who makes it. What has no rule changes nothing, sends nothing and has no news.
///
/// It does nothing: its contract is the law.
///
/// Rule: docs/PROTOCOL.md, "Steps of a node".
pub fn table_law()
    ensures frame { HasRuleLaw }
    ensures start { HasStartRuleLaw }
    ensures without { WithoutRuleLaw }
    ensures start_without { WithoutStartRuleLaw }
{}

/// What the words mean in which the other laws speak: from whom a frame is, to whom, and what it says; that one message goes to each of
/// some names, in their order; when a cast has no news; and of which cast a session is.
///
/// It does nothing: its contract is the law.
///
/// Rule: docs/PROTOCOL.md, "Steps of a node".
pub fn said_law()
    ensures message { MessageFrameLaw }
    ensures link { LinkFrameLaw }
    ensures lay { LayFrameLaw }
    ensures each { ToEachLaw }
    ensures cast_news { CastNewsLaw }
    ensures cast_of { CastOfLaw }
{}

/// How a node begins: one that starts to join has no links and no holders, and a member is a core node with its ties at rest. Each has its
/// name and the settings, and nothing has happened at it.
///
/// It does nothing: its contract is the law.
///
/// Rule: docs/PROTOCOL.md, "Nodes".
pub fn beginning_law()
    ensures joiner { BeginsToJoinLaw }
    ensures member { BeginsAtRestLaw }
{}
