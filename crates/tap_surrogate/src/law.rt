ghost use Rattle.tap_table.specs.RestLaws.{TiesLaw, FirstFittingLaw};
ghost use Rattle.tap_surrogate.specs.WalkLaws.{WalkLaw, EnteredLaw, NextHopLaw, ChainLaw, RestLaw, LeastLaw};

/// Over tables without holes a walk from any core node, to any object, passes core nodes alone and
/// ends at the object's one root, in as many hops as a name has digits or fewer. It enters each node
/// at a greater level than the one before it: one more than the number of digits that they share.
///
/// Where all links of a node are settled and to core nodes, the next hop that its table gives a
/// message is the walk's, at any level: both stay, or both hop to the same node and go on there at
/// the same level. Where this holds of each core node, a walk is a chain of such next hops.
///
/// It does nothing: its contract is the law.
///
/// Rule: docs/PROTOCOL.md, "Walks" and "Next hops".
pub fn walk_law()
    ensures leads { WalkLaw }
    ensures entered { EnteredLaw }
    ensures next_hop { NextHopLaw }
    ensures chain { ChainLaw }
{}

/// Where the members of an overlay are at rest, as `Ties::at_rest` makes each of them, their tables
/// have no hole that a member could fill. Each slot has settled links to the least members that fit
/// it, as many as the width allows, and no others. Of ascending members these are the first ones
/// that fit.
///
/// It does nothing: its contract is the law.
///
/// Rule: docs/PROTOCOL.md, "Slots and tables".
pub fn members_law()
    ensures ties { TiesLaw }
    ensures hole_free { RestLaw }
    ensures least { LeastLaw }
    ensures first_fitting { FirstFittingLaw }
{}
