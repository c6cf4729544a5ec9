//! What holds of every machine, and of the machine of sessions.
//! A law is the contract of a function that does nothing: a call makes it known where it stands.
ghost use Rattle.session_machine.specs.Laws.{IsQuiet, MakesEachCall, FollowsOrder, AloneMakesEachCall, LooksNoFurther, IsOneOrder};
ghost use Rattle.session_machine.specs.Machine.{Machine};
ghost use Rattle.session_machine.specs.Table.{Readings};
ghost use Rattle.session_machine.specs.Sessions.{Base, sessions, RefusalsChangeNothing, LocalsPublishNothing, SessionsAreOneOrder, VersionsAreMade, MadeVersionsHaveNetlists, NetlistsStay};

/// Along an order each session makes the calls of its script, each once and in their order.
pub fn each_call_is_made<C, R, S, V>()
    ensures { (machine : Machine C R S V) → MakesEachCall machine }
{}

/// Along an order the shared calls are made in that order.
pub fn order_is_followed<C, R, S, V>()
    ensures { (machine : Machine C R S V) → FollowsOrder machine }
{}

/// A session alone makes each call of its script, once and in their order, where it has a place for each of its
/// shared calls.
pub fn alone_makes_each_call<C, R, S, V>()
    ensures { (machine : Machine C R S V) → AloneMakesEachCall machine }
{}

/// What a session does alone stays the same where further places come that are not its own.
pub fn alone_looks_no_further<C, R, S, V>()
    ensures { (machine : Machine C R S V) → LooksNoFurther machine }
{}

/// Where the places are an order, and at the places of each session just that is published which it publishes alone, the replies
/// of all sessions alone are the machine's along that order, and at each place just that is published which the machine publishes
/// there. Premise: a local call publishes nothing.
pub fn alone_is_the_machine<C, R, S, V>()
    ensures { (machine : Machine C R S V) → IsQuiet machine → IsOneOrder machine }
{}

/// A call that is refused leaves its session as it was, and publishes nothing.
pub fn refusals_change_nothing()
    ensures { RefusalsChangeNothing }
{}

/// A local call of the sessions publishes nothing.
pub fn local_calls_publish_nothing()
    ensures { LocalsPublishNothing }
{}

/// So where each session publishes at its places what it publishes alone, the replies of all sessions alone are the machine's along
/// the order of those places, and just there a version is published where the machine publishes one, with the same edits.
pub fn sessions_are_one_order()
    ensures { SessionsAreOneOrder }
{}

/// And the other laws hold of the machine of sessions: each session makes each of its calls once, the shared ones in their order; alone
/// it makes each too, and looks at no place behind its last one.
pub fn sessions_make_each_call()
    ensures calls { (readings : Readings) (base : Base) → MakesEachCall (sessions readings base) }
    ensures order { (readings : Readings) (base : Base) → FollowsOrder (sessions readings base) }
    ensures alone { (readings : Readings) (base : Base) → AloneMakesEachCall (sessions readings base) }
    ensures further { (readings : Readings) (base : Base) → LooksNoFurther (sessions readings base) }
{}

/// Whatever calls are made, no edit of a published version is refused: each version is made of the one before it.
pub fn versions_are_made()
    ensures { VersionsAreMade }
{}

/// Versions of which each is made of the one before it have the netlists that they make.
pub fn made_versions_have_netlists()
    ensures { MadeVersionsHaveNetlists }
{}

/// The netlist of a version stays the same, whatever versions come.
pub fn netlists_stay()
    ensures { NetlistsStay }
{}
