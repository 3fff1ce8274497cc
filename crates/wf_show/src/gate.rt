//! A hand on the clients' events, for tests.

/// Is called round each event of the clients 1 to 7, outside the desk, with the client's own count of events from 1. A gate may
/// hold a client; it takes no part in what happens.
pub trait Gate: Sync {
    fn before(&self, client: u8, event: u32);

    fn after(&self, client: u8, event: u32);
}

/// The gate that holds nothing.
#[derive(Clone, Copy, Debug)]
pub struct Open;

impl Gate for Open {
    fn before(&self, _client: u8, _event: u32) {}

    fn after(&self, _client: u8, _event: u32) {}
}
