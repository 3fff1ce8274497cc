//! Events, of which histories are made.

/// One call that the object answered. Clauses speak of events; no value of this type is made.
pub struct Event<C, R> {
    pub client: u8,
    pub call: C,
    pub reply: R,
}
