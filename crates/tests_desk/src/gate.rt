//! A gate, which four threads enter one at a time.

ghost use Rattle.std.specs.Prelude.{◌≡◌, ◌<◌, ◌&&◌, not};

use std::sync::Wait;
use std::test::Fail;
use std::thread::{Threads, join};
use wf_desk::{Desk, Object, Pass};

// Somebody is inside.
#[derive(Drop)]
struct Gate {
    taken: bool,
}

#[derive(Clone, Copy)]
struct Step {
    enters: bool,
}

#[derive(Clone, Copy)]
struct Passage {
    client: u8,
    was_taken: bool,
}

impl Object for Gate {
    type Call = Step;

    type Reply = bool;

    type Entry = Passage;

    ghost is_ready = { λ gate step. not (step.enters && gate.taken) };

    ghost may = { λ gate client step reply. reply ≡ gate.taken };

    ghost after = { λ gate client step reply. record { taken = step.enters } };

    ghost entry_of = { λ client reply. record { client = client; was_taken = reply } };

    fn ready(&self, step: &Step) -> bool {
        !(step.enters && self.taken)
    }

    fn run(&mut self, _client: u8, step: Step) -> bool {
        let was_taken = self.taken;
        self.taken = step.enters;
        was_taken
    }

    fn entry(client: u8, reply: &bool) -> Passage {
        Passage {
            client,
            was_taken: *reply,
        }
    }
}

// Walks through the gate as often as two calls are left.
fn walk<R: Wait>(rt: &R, desk: &Desk<Gate>, mut pass: Pass<Gate>) -> Pass<Gate>
    requires { pass.desk ≡ desk.now.id }
    ensures { (result.desk ≡ pass.desk) × (result.client ≡ pass.client) }
{
    while pass.left() > 1 {
        desk.call_when(rt, &mut pass, Step { enters: true });
        desk.call(rt, &mut pass, Step { enters: false });
    }
    pass
}

fn walk_both<R: Threads + Wait + Sync>(
    rt: &R,
    desk: &Desk<Gate>,
    one: Pass<Gate>,
    two: Pass<Gate>,
) -> (Pass<Gate>, Pass<Gate>)
    requires { (one.desk ≡ desk.now.id) × (two.desk ≡ desk.now.id) }
    ensures one { (result.0.desk ≡ one.desk) × (result.0.client ≡ one.client) }
    ensures two { (result.1.desk ≡ two.desk) × (result.1.client ≡ two.client) }
{
    join(
        rt,
        || -> Pass<Gate>
            requires { one.desk ≡ desk.now.id }
            ensures { (result.desk ≡ one.desk) × (result.client ≡ one.client) }
        { walk(rt, desk, one) },
        || -> Pass<Gate>
            requires { two.desk ≡ desk.now.id }
            ensures { (result.desk ≡ two.desk) × (result.client ≡ two.client) }
        { walk(rt, desk, two) },
    )
}

#[test]
fn four_threads_pass_a_gate(rt: HostRuntime) -> Result<(), Fail> {
    let gate = Gate { taken: false };
    let (desk, mut passes) = Desk::open(rt.alloc(), gate, &[200, 200, 200, 200])?;
    let four = passes.pop().unwrap();
    let three = passes.pop().unwrap();
    let two = passes.pop().unwrap();
    let one = passes.pop().unwrap();
    let shared = &desk;
    let ((one, two), (three, four)) = join(
        &rt,
        || -> (Pass<Gate>, Pass<Gate>)
            requires { (one.desk ≡ shared.now.id) × (two.desk ≡ shared.now.id) }
            ensures { (result.0.desk ≡ one.desk) × (result.0.client ≡ one.client) × (result.1.desk ≡ two.desk)
                × (result.1.client ≡ two.client) }
        { walk_both(&rt, shared, one, two) },
        || -> (Pass<Gate>, Pass<Gate>)
            requires { (three.desk ≡ shared.now.id) × (four.desk ≡ shared.now.id) }
            ensures { (result.0.desk ≡ three.desk) × (result.0.client ≡ three.client) × (result.1.desk ≡ four.desk)
                × (result.1.client ≡ four.client) }
        { walk_both(&rt, shared, three, four) },
    );
    passes.push_reserved(one);
    passes.push_reserved(two);
    passes.push_reserved(three);
    passes.push_reserved(four);
    let (gate, journal) = desk.close(passes);
    assert!(rt; !gate.taken);
    // Who enters is the next to leave.
    let entries = journal.into_entries();
    assert_eq!(rt; entries.len(), 800);
    for walks in entries.chunks_exact(2) {
        assert!(rt; !walks[0].was_taken && walks[1].was_taken);
        assert_eq!(rt; walks[0].client, walks[1].client);
    }
    Ok(())
}
