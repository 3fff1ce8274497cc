//! Gates that hold events of some clients until events of others were answered.

use std::sync::atomic::{AtomicU64, Ordering};
use std::thread::yield_now;
use wf_play::Gate;

/// An event of a client that is held until an event of another client was answered; a client's events count from 1.
#[derive(Clone, Copy)]
pub(crate) struct Hold {
    pub(crate) client: u8,
    pub(crate) event: u32,
    pub(crate) behind: u8,
    pub(crate) answered: u32,
}

/// A gate with its holds. A hold lasts for so many turns at most. Once that many were taken the gate holds nothing any more, and says
/// that it was late.
#[derive(Drop)]
pub(crate) struct Holding {
    holds: Vec<Hold>,
    most: u64,
    answered: [AtomicU64; 8],
    late: AtomicU64,
}

impl Holding {
    pub(crate) fn new(holds: Vec<Hold>, most: u64) -> Holding {
        Holding {
            holds,
            most,
            answered: [
                AtomicU64::new(0),
                AtomicU64::new(0),
                AtomicU64::new(0),
                AtomicU64::new(0),
                AtomicU64::new(0),
                AtomicU64::new(0),
                AtomicU64::new(0),
                AtomicU64::new(0),
            ],
            late: AtomicU64::new(0),
        }
    }

    /// Whether a hold reached its limit.
    pub(crate) fn was_late(&self) -> bool {
        self.late.load(Ordering::SeqCst) > 0
    }

    /// Waits until so many events of a client were answered.
    fn wait(&self, client: u8, events: u32) {
        if client >= 8 {
            return;
        }
        for _ in 0..self.most {
            let answered = self.answered[usize::from(client)].load(Ordering::SeqCst);
            if answered >= events.into() || self.was_late() {
                return;
            }
            yield_now();
        }
        self.late.store(1, Ordering::SeqCst);
    }
}

impl Gate for Holding {
    fn before(&self, client: u8, event: u32) {
        for hold in &self.holds {
            if hold.client == client && hold.event == event {
                self.wait(hold.behind, hold.answered);
            }
        }
    }

    fn after(&self, client: u8, event: u32) {
        if client < 8 {
            self.answered[usize::from(client)].store(event.into(), Ordering::SeqCst);
        }
    }
}
