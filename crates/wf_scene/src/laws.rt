//! Laws of the definitions: what an insert and a run of them leave, what is told of an attribute that was set, and when
//! a commit takes a scene.

ghost use Rattle.std.specs.Prelude.{◌≡◌, ◌≢◌, ℕ, ℤ, List, [], IsTrue, Some, is_ok};
ghost use Rattle.std.specs.List.{list_all};
ghost use Rattle.wf_words.specs.Keyed.{is_in};
ghost use Rattle.wf_scene.specs.Order.{below, inserted, is_base, without};
ghost use Rattle.wf_scene.specs.declared.attributes.ElementAttr.{ElementAttr};
ghost use Rattle.wf_scene.specs.declared.element.Element.{Element};
ghost use Rattle.wf_scene.specs.Elements.{change_of, may_take, numbers};
ghost use Rattle.wf_scene.specs.Told.{told};
ghost use Rattle.wf_scene.specs.Cached.{CachedScene};
ghost use Rattle.wf_scene.specs.Sight.{Sight};
ghost use Rattle.wf_scene.specs.Consistent.{consistent, inserted_elements, keeps_rules};
ghost use Rattle.wf_scene.specs.Moves.{Move, scene_after, times};

/// After any run of inserts and removes, from nothing inserted on, each inserted element stands exactly once.
pub fn each_stands_once()
    ensures { (c : CachedScene) (moves : List Move) (handle : ℕ) → c.order ≡ [] → IsTrue (is_in handle (scene_after c moves).order)
        → times handle (scene_after c moves).order ≡ 1 }
{}

/// An insert puts the element directly above its base, where 0 stands for the bottom, and leaves all others in their order.
pub fn inserted_above()
    ensures above { (order : List ℕ) (handle base : ℕ) → IsTrue (is_base base order) → handle ≢ base
        → below handle (inserted handle base order) ≡ Some base }
    ensures others { (order : List ℕ) (handle base : ℕ) → without handle (inserted handle base order) ≡ without handle order }
{}

/// What was set is what is told: after a value of an attribute was set, each of its numbers is answered as it was given,
/// a negative one in two's complement.
pub fn set_is_told()
    ensures { (a : ElementAttr) (v : List ℤ) (change : Element → Element) (e : Element) → IsTrue (may_take a v)
        → change_of a v ≡ Some change → numbers a (change e) ≡ told a v }
{}

/// A commit takes a scene exactly where every inserted element keeps every rule.
pub fn consistent_by_rules()
    ensures { (sight : Sight) (c : CachedScene) → is_ok (consistent sight c) ≡ list_all (keeps_rules sight) (inserted_elements c) }
{}
