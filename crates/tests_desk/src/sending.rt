//! That a desk and a pass of any object cross threads.

ghost use Rattle.std.specs.Prelude.{◌≡◌};

use std::thread::{Threads, join};
use wf_desk::{Desk, Object, Pass};

// A desk is shared and a pass is sent, for every object.
fn send_one<O: Object, R: Threads + Sync>(rt: &R, desk: &Desk<O>, pass: Pass<O>) -> Pass<O>
    ensures { result ≡ pass }
{
    join(
        rt,
        || -> Pass<O>
            ensures { result ≡ pass }
        {
            let _shared = desk;
            pass
        },
        || (),
    )
    .0
}
