//! What a run's promise means: a function with an empty body, whose contract is the law.

ghost use Rattle.std.specs.Prelude.{Bool};
ghost use Rattle.lus_devices.specs.Devices.{Bytes};
ghost use Rattle.lus_host.specs.Headline.{Headline};
ghost use Rattle.lus_host.specs.Runs.{Ran};

use lus_callers::lus_machine::accepted_programs;

/// Of what `run` promises to write, all that is so: each instance's history is one reactive node's, whose outputs are those of
/// the unique streams of the source, faults come only where there are none, and the entries are the callers' entered calls.
pub fn headline()
    ensures { (text bytes : Bytes) (done : Bool) (journals : Bytes) → Ran text bytes done journals → Headline text bytes done journals }
{
    accepted_programs();
}
