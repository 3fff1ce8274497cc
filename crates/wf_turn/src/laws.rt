//! Laws of the definitions of an order and its film.

ghost use Rattle.std.specs.Prelude.{◌≡◌, ◌≤◌, ℕ, nat_le, List, [], All, length, Some, IsSome, IsTrue};
ghost use Rattle.wf_image.specs.Bitmap.{Bitmap};
ghost use Rattle.wf_calls.specs.declared.order.Turn.{Turn};
ghost use Rattle.wf_script.specs.Generator.{made};
ghost use Rattle.wf_script.specs.Script.{PlainScript};
ghost use Rattle.wf_turn.specs.MadePlay.{IsMadePlay};
ghost use Rattle.wf_turn.specs.Moments.{At, EndsInto, IsOfLastFrame, IsOfMoment, ShowsLast, TellsPlace};
ghost use Rattle.wf_turn.specs.Moments.{image_after, is_free_after};
ghost use Rattle.wf_turn.specs.Play.{frames_after, replay, serial_order};

/// Each frame of an order is the picture of one scene, that of its port, and of the images that the frame takes of the scene's
/// streams, all at the moment of one entry, which tells that the frame begins. The port's screen is one of these streams; which
/// image it has at that moment, the laws on screens say of the entries before that one.
pub fn each_frame_is_of_a_moment()
    ensures { (script : PlainScript) (order : List Turn) → All (IsOfMoment script order) (frames_after (replay script order)) }
{}

/// Each frame of an order carries the place, in the journal and from 0, of the entry that tells of its Begin.
pub fn each_frame_tells_its_place()
    ensures { (script : PlainScript) (order : List Turn) → All (TellsPlace order) (frames_after (replay script order)) }
{}

/// After any order, the image that a frame takes of a port's screen is of the last frame that ended into the screen: the picture
/// of the scene that this frame's context had committed at its Begin, and of the images that it took of that scene's streams.
pub fn each_screen_is_of_the_last_frame()
    ensures { (script : PlainScript) (order : List Turn) (port : ℕ) (image : Bitmap)
        → IsTrue (nat_le port (length script.ports.modes.items)) → image_after port (replay script order) ≡ Some image
        → IsOfLastFrame script order port image }
{}

/// The last frame that ended into a stream is one, and composed one image, so the law above leaves no choice.
pub fn the_last_frame_is_one()
    ensures { (script : PlainScript) (order : List Turn) (stream : ℕ) (image other : Bitmap)
        → IsOfLastFrame script order stream image → IsOfLastFrame script order stream other → image ≡ other }
{}

/// After any legal order that leaves no frame running, a port's screen has an image if a frame ended into it.
pub fn each_screen_keeps_an_image()
    ensures { (script : PlainScript) (order : List Turn) (port number : ℕ) → IsTrue (nat_le 1 port)
        → IsTrue (nat_le port (length script.ports.modes.items)) → At script order (EndsInto port number)
        → IsTrue (is_free_after (replay script order)) → IsSome (image_after port (replay script order)) }
{}

/// Each frame of an order is of a moment at which its port's screen has the image of the last frame that ended into the screen
/// before, or none where none had ended.
pub fn each_frame_shows_what_ended_last()
    ensures { (script : PlainScript) (order : List Turn) → All (ShowsLast script order) (frames_after (replay script order)) }
{}

/// The serial play of a script that was made of n rounds, in which no creation is refused for want of memory, leaves every program
/// through. It has three events of the setup and eighteen of each round, and its film has n frames and as many bytes as `made_bytes`
/// says.
pub fn made_scripts_play_three_events_and_eighteen_a_round()
    ensures { (n : ℕ) → 1 ≤ n → n ≤ 1000 → IsMadePlay n (serial_order (made n) []) }
{}
