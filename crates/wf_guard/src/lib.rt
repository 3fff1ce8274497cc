//! What an app may ask of the machine, and that it then leaves alone all that is not its own.
#![tactic(auto)]

mod bytes;
mod clients;
mod form;
mod laws;
mod owners;
mod screen;

pub use clients::{
    APP_BYTES, APP_STREAMS, APPS, BROKER, CLIENTS, MANAGER, MANAGER_BYTES, MANAGER_STREAMS, OUTPUT,
};
pub use form::{Form, MOST_PORTS};
pub use laws::{
    a_client_holds_one_at_most, an_app_holds_its_own, an_app_is_answered_alike,
    an_app_is_answered_by_what_it_names, an_app_is_told_alike, an_app_leaves_the_rest_alone,
    bytes_are_true, live_streams_follow_from_calls, no_app_changes_the_screens,
    no_app_changes_what_another_sees, no_app_touches_a_foreign_stream, no_two_draw_on_one_stream,
    nobody_touches_anothers_canvas, others_leave_what_an_app_sees, owners_are_true,
    shares_are_kept, shares_fit, who_leaves_asks_for_it,
};
pub use owners::{Owned, Owners};
pub use screen::Screen;
