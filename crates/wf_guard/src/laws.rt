//! Laws of the policy of clients. Client 0 is the window manager; any other is an app.

ghost use Rattle.std.specs.Prelude.{◌≡◌, ◌≤◌, ◌+◌, ◌*◌, ◌==◌, ℕ, Bool, false, List, IsFalse, IsTrue, None, Some};
ghost use Rattle.wf_calls.specs.declared.call.Call.{Call};
ghost use Rattle.wf_calls.specs.declared.ports.Ports.{Ports};
ghost use Rattle.wf_host.specs.Held.{canvas_of, without};
ghost use Rattle.wf_image.specs.declared.canvas.Canvas.{Canvas};
ghost use Rattle.wf_guard.specs.Policy.{KeepsShare, left_by, owns};
ghost use Rattle.wf_guard.specs.Alike.{LooksAlike, MeetsSame, RunsAlike, Spares, told_in};
ghost use Rattle.wf_guard.specs.Apps.{LeavesTheRest, LooksSame, SameScreens, is_of_apps};
ghost use Rattle.wf_guard.specs.declared.clients.TheConstants.{APP_BYTES, APP_STREAMS, APPS, MANAGER_BYTES, MANAGER_STREAMS};
ghost use Rattle.wf_guard.specs.declared.form.Form.{Form};
ghost use Rattle.wf_guard.specs.declared.form.TheConstants.{MOST_PORTS};
ghost use Rattle.wf_guard.specs.LiveStreams.{AreMeasured, AreTrue, Turn, after_turns, destroyed_by, destroying, lives_after, live_handles};
ghost use Rattle.wf_guard.specs.LiveStreams.{opened};
ghost use Rattle.wf_guard.specs.Serving.{Asked, Served, served};
ghost use Rattle.wf_model.specs.State.{State};
ghost use Rattle.wf_model.specs.Step.{step};
ghost use Rattle.wf_stream.specs.Streams.{KeptStream, stream_at};
ghost use Rattle.wf_stream.specs.declared.TheConstants.{MOST_BYTES, MOST_STREAMS, SCREEN_BYTES};

/// Shows that a call of the kinds that an app may make, whatever it names, leaves the composition, the display and the running frame as
/// they were, and every live stream that it does not name: its buffers, its size, its handle and that it is kept.
pub fn an_app_leaves_the_rest_alone()
    ensures { (h : State) (client : ℕ) (c : Call) (memory_refused : Bool) → IsTrue (is_of_apps c)
        → LeavesTheRest c h (step h client c memory_refused).0 }
{}

/// Shows that what such a call is answered follows from the stream that it names, and for a new stream from the shared limits and the next
/// handle: an app sees nothing else of what others do.
pub fn an_app_is_answered_by_what_it_names()
    ensures { (h k : State) (client : ℕ) (c : Call) (memory_refused : Bool) → IsTrue (is_of_apps c) → LooksSame c h k
        → (step h client c memory_refused).1 ≡ (step k client c memory_refused).1 }
{}

/// Shows that no request of a client, be it an app or the window manager, changes what another client holds: nobody draws on another's
/// write buffer, posts it or gives it back.
pub fn nobody_touches_anothers_canvas()
    ensures { (v : Served) (a b : ℕ) (x : Asked) (memory_refused : Bool) → IsFalse (a == b)
        → canvas_of b (served a x memory_refused v).0.held ≡ canvas_of b v.held }
{}

/// Shows that no request of an app changes what is on the screens: neither what is composed or waits to be, nor ports and pipelines, nor
/// the running frame. What a screen shows of an app's stream is then the window manager's choice alone.
pub fn no_app_changes_the_screens()
    ensures { (v : Served) (a : ℕ) (x : Asked) (memory_refused : Bool) → IsFalse (a == 0)
        → SameScreens v.machine (served a x memory_refused v).0.machine }
{}

/// Shows that in every state that turns lead to a live stream which an app does not own stays as it was, whatever the app asks for: a
/// request, to draw on the write buffer that it holds, or to post or discard it.
pub fn no_app_touches_a_foreign_stream()
    ensures { (form : Form) (ports : Ports) (turns : List Turn) → let v : Served = after_turns (opened form ports) turns in
        (a : ℕ) (x : Asked) (memory_refused : Bool) (n : ℕ) (s : KeptStream) → IsFalse (a == 0)
        → stream_at n v.machine.streams ≡ Some s → (s.handle == 0) ≡ false → owns a s.handle v.owned ≡ false
        → stream_at n (served a x memory_refused v).0.machine.streams ≡ Some s }
{}

/// Shows that in every state that turns lead to the write buffer that an app holds is of a stream of its own, if that stream is live: its
/// number is given to no other stream, though the window manager may have destroyed it.
pub fn an_app_holds_its_own()
    ensures { (form : Form) (ports : Ports) (turns : List Turn) → let v : Served = after_turns (opened form ports) turns in
        (a : ℕ) (canvas : Canvas) (s : KeptStream) → IsFalse (a == 0) → canvas_of a v.held ≡ Some canvas
        → stream_at canvas.stream v.machine.streams ≡ Some s → (s.handle == 0) ≡ false → IsTrue (owns a s.handle v.owned) }
{}

/// Shows that which streams are live follows from the calls and their answers alone: a stream lives from the call that made it to the call
/// that destroys it, whatever shows it then.
pub fn live_streams_follow_from_calls()
    ensures { (h : State) (client : ℕ) (c : Call) (memory_refused : Bool) → live_handles (step h client c memory_refused).0.streams
        ≡ lives_after c (step h client c memory_refused).1 (live_handles h.streams) }
{}

/// Shows that in every state that turns lead to no client has more live streams than its share, nor do their buffers take more bytes.
pub fn shares_are_kept()
    ensures { (form : Form) (ports : Ports) (turns : List Turn) (client : ℕ)
        → KeepsShare client (after_turns (opened form ports) turns).owned }
{}

/// Shows that the shares of the window manager and of all apps, with the screens of all ports, fit into the streams and the bytes that
/// there may be.
pub fn shares_fit()
    ensures streams { MOST_PORTS + MANAGER_STREAMS + APPS * APP_STREAMS ≤ MOST_STREAMS }
    ensures bytes { MOST_PORTS * SCREEN_BYTES + MANAGER_BYTES + APPS * APP_BYTES ≤ MOST_BYTES }
{}

/// Shows that owners are true in every state that turns lead to: each live stream has one owner, who made it, and nothing else has one.
pub fn owners_are_true()
    ensures { (form : Form) (ports : Ports) (turns : List Turn) → AreTrue (after_turns (opened form ports) turns) }
{}

/// Shows that in every state that turns lead to what is kept of a live stream are the bytes that its buffers take, so what counts for a
/// share is what the machine has.
pub fn bytes_are_true()
    ensures { (form : Form) (ports : Ports) (turns : List Turn) → AreMeasured (after_turns (opened form ports) turns) }
{}

/// Shows that two states that turns lead to and that look alike to an app answer it the same, whatever it asks for, and look alike to it
/// afterwards, where what all clients share is the same in both as far as that request may need it.
pub fn an_app_is_answered_alike()
    ensures { (form other_form : Form) (ports other_ports : Ports) (turns other_turns : List Turn)
        → let v : Served = after_turns (opened form ports) turns in
        let w : Served = after_turns (opened other_form other_ports) other_turns in
        (a : ℕ) (x : Asked) (memory_refused : Bool) → IsFalse (a == 0) → LooksAlike a v w → MeetsSame x v w
        → ((served a x memory_refused v).1 ≡ (served a x memory_refused w).1)
        × LooksAlike a (served a x memory_refused v).0 (served a x memory_refused w).0 }
{}

/// Shows that in every state that turns lead to what another client asks for, an app or the window manager, leaves what an app sees as it
/// was, where it names none of that app's streams. So do all calls of composition and of the display, and all creations.
pub fn others_leave_what_an_app_sees()
    ensures { (form : Form) (ports : Ports) (turns : List Turn) → let v : Served = after_turns (opened form ports) turns in
        (a b : ℕ) (x : Asked) (memory_refused : Bool) → IsFalse (a == 0) → IsFalse (b == a) → Spares a b x v
        → LooksAlike a v (served b x memory_refused v).0 }
{}

/// Shows that an app is told the same in two runs that look alike to it: what it is answered follows from what it asks for, from what all
/// clients share, and from what happens to its own streams.
pub fn an_app_is_told_alike()
    ensures { (form other_form : Form) (ports other_ports : Ports) (turns other_turns : List Turn) (a : ℕ) → IsFalse (a == 0)
        → RunsAlike a (opened form ports) (opened other_form other_ports) turns other_turns
        → told_in a turns (opened form ports) ≡ told_in a other_turns (opened other_form other_ports) }
{}

/// Shows that in every state that turns lead to no app changes what another app sees, whatever it asks for.
pub fn no_app_changes_what_another_sees()
    ensures { (form : Form) (ports : Ports) (turns : List Turn) → let v : Served = after_turns (opened form ports) turns in
        (a b : ℕ) (x : Asked) (memory_refused : Bool) → IsFalse (a == 0) → IsFalse (b == 0) → IsFalse (b == a)
        → LooksAlike a v (served b x memory_refused v).0 }
{}

/// Shows that in every state that turns lead to no two clients hold the write buffer of one stream.
pub fn no_two_draw_on_one_stream()
    ensures { (form : Form) (ports : Ports) (turns : List Turn) → let v : Served = after_turns (opened form ports) turns in
        (a b : ℕ) (one two : Canvas) → IsFalse (b == a) → canvas_of a v.held ≡ Some one → canvas_of b v.held ≡ Some two
        → IsFalse (one.stream == two.stream) }
{}

/// Shows that in every state that turns lead to a client holds one write buffer at most: without it, it holds none.
pub fn a_client_holds_one_at_most()
    ensures { (form : Form) (ports : Ports) (turns : List Turn) (client : ℕ) → let v : Served = after_turns (opened form ports) turns in
        canvas_of client (without client v.held) ≡ None }
{}

/// Shows that in every state that turns lead to a client whose streams are all destroyed, and who then owns nothing, is served as by turns
/// in which it asks for that. So a client that leaves leads to no other states.
pub fn who_leaves_asks_for_it()
    ensures { (form : Form) (ports : Ports) (turns : List Turn) (client : ℕ) → let v : Served = after_turns (opened form ports) turns in
        after_turns v (destroying client v.owned)
        ≡ record v { machine = destroyed_by client v.owned v.machine; owned = left_by client v.owned } }
{}
