//! Laws of replies and of maps: each is the contract of a call that does nothing.

ghost use Rattle.edit_replay.specs.Grounds.{TerrainHasGrounds};
ghost use Rattle.edit_replay.specs.ReplyOf.{NoneElseReplies, RepliesExist};

/// Whatever the engine, the grids and the ends, there is a reply that is right and the engine's run: a
/// function of these tells it.
pub fn replies_exist()
    ensures { RepliesExist }
{}

/// On the layers of one map no other reply is right and the run of the session's engine. Of the engine the
/// function asks no more than whether it jumps, and with which states:
/// so `jps`, `block` and `plus` have one reply.
pub fn none_else_replies()
    ensures { NoneElseReplies }
{}

/// The bytes that a map's text may have are those that stand for land or water, and `@`, `O` and `T`,
/// which are the blocked ones: a byte that one crate knows and the other does not would be blocked unseen.
pub fn terrain_has_grounds()
    ensures { TerrainHasGrounds }
{}
