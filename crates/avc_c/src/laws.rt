//! Laws of C's calls.

ghost use Rattle.avc_c.specs.CallsOfC.{CallsAreARun};

/// However C calls a decoder from open to close, it is told the replies of a run of the machine; so
/// `runs_give_the_events` of avc_laws holds for C's callers too.
pub fn calls_are_a_run()
    ensures { CallsAreARun }
{}
