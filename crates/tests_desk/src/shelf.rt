//! A shelf of one place, whose calls and replies own memory.

ghost use Rattle.std.specs.Prelude.{◌≡◌, true, length};

use std::marker::Model;
use std::test::Fail;
use wf_desk::{Desk, Object};

#[derive(Drop)]
struct Parcel {
    bytes: Vec<u8>,
}

impl Model for Parcel {
    ghost use Rattle.std.specs.Prelude.{ℕ, List};

    ghost Value = { List ℕ };

    ghost view = { λ p. p.bytes.items };
}

// A parcel that is put there takes the place of the one before, which is handed out.
#[derive(Drop)]
struct Shelf {
    parcel: Parcel,
}

#[derive(Clone, Copy)]
struct Handed {
    client: u8,
    bytes: usize,
}

impl Object for Shelf {
    type Call = Parcel;

    type Reply = Parcel;

    type Entry = Handed;

    ghost is_ready = { λ shelf parcel. true };

    ghost may = { λ shelf client parcel reply. reply ≡ shelf.parcel };

    ghost after = { λ shelf client parcel reply. record { parcel = parcel } };

    ghost entry_of = { λ client reply. record { client = client; bytes = length reply } };

    fn ready(&self, _parcel: &Parcel) -> bool {
        true
    }

    fn run(&mut self, _client: u8, parcel: Parcel) -> Parcel {
        std::mem::replace(&mut self.parcel, parcel)
    }

    fn entry(client: u8, reply: &Parcel) -> Handed {
        Handed {
            client,
            bytes: reply.bytes.len(),
        }
    }
}

#[test]
fn parcels_move(rt: HostRuntime) -> Result<(), Fail> {
    let shelf = Shelf {
        parcel: Parcel {
            bytes: vec![in rt.alloc(); 1, 2, 3]?,
        },
    };
    let (desk, mut passes) = Desk::open(rt.alloc(), shelf, &[2])?;
    let mut pass = passes.pop().unwrap();
    let first = Parcel {
        bytes: vec![in rt.alloc(); 4, 5]?,
    };
    let handed = desk.call(&rt, &mut pass, first);
    assert_eq!(rt; handed.bytes.as_slice(), [1, 2, 3].as_slice());
    let handed = desk.call(&rt, &mut pass, handed);
    assert_eq!(rt; handed.bytes.as_slice(), [4, 5].as_slice());
    passes.push_reserved(pass);
    let (shelf, journal) = desk.close(passes);
    assert_eq!(rt; shelf.parcel.bytes.as_slice(), [1, 2, 3].as_slice());
    let mut bytes = [3, 2].into_iter();
    for handed in journal.into_entries() {
        assert_eq!(rt; Some(handed.bytes), bytes.next());
        assert_eq!(rt; handed.client, 0);
    }
    Ok(())
}
