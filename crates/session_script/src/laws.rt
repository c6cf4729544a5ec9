//! What the definition of a script means, in words of its own.
//! A law is the contract of a function that does nothing: a call makes it known where it stands.
ghost use Rattle.session_script.specs.FaultyLines.{AcceptedScriptsSayCalls, SaidCallsAreRead, FirstFaultyLineTold, FaultyLineRefuses};

/// The lines of an accepted script that have a word say its calls, and these are no more than may be.
pub fn accepted_scripts_say_their_calls()
    ensures { AcceptedScriptsSayCalls }
{}

/// And lines whose words say calls, no more than may be, are accepted as those calls.
pub fn said_calls_are_read()
    ensures { SaidCallsAreRead }
{}

/// A refused script has a line at fault behind lines that say calls, and its fault is the one told.
pub fn first_faulty_line_is_told()
    ensures { FirstFaultyLineTold }
{}

/// And a line at fault behind lines that say calls refuses the script with its fault.
pub fn first_faulty_line_refuses()
    ensures { FaultyLineRefuses }
{}
