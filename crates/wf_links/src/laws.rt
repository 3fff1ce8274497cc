//! Laws of the definitions: where a node stands, and where it is put.

ghost use Rattle.std.specs.Prelude.{◌≡◌, ◌≢◌, ℕ, ◌≤◌, ◌==◌, ◌↔◌, List, Option, Some, IsTrue, IsFalse, count_by};
ghost use Rattle.wf_words.specs.Keyed.{is_in};
ghost use Rattle.wf_links.specs.Lists.{NodeLists, IsOrderly, MayInsert, list_at, list_of, above, below, inserted, removed};

/// A node is in one list at most, and stands there once. Every call leaves orderly lists.
pub fn one_list_at_most()
    ensures list { (o : NodeLists) (node i j : ℕ) → IsOrderly o → IsTrue (is_in node (list_at i o.lists))
        → IsTrue (is_in node (list_at j o.lists)) → i ≡ j }
    ensures once { (o : NodeLists) (node i : ℕ) → IsOrderly o → count_by (λ x. x == node) (list_at i o.lists) ≤ 1 }
{}

/// What stands directly above a node has that node directly below it, and the other way round.
pub fn above_and_below()
    ensures { (o : NodeLists) (node other : ℕ) → IsOrderly o
        → (above node o.lists ≡ Some other) ↔ (below other o.lists ≡ Some node) }
{}

/// A node that is put into a list is in that list, directly above the node that was given, or lowest where none was.
pub fn inserted_above()
    ensures list { (o : NodeLists) (list node : ℕ) (base : Option ℕ) → IsOrderly o → MayInsert o list node base
        → list_of node (inserted list node base o.lists) ≡ Some list }
    ensures base { (o : NodeLists) (list node : ℕ) (base : Option ℕ) → IsOrderly o → MayInsert o list node base
        → below node (inserted list node base o.lists) ≡ base }
{}

/// A node that is put into a list and taken out again leaves all lists as they were.
pub fn inserted_and_removed()
    ensures { (o : NodeLists) (list node : ℕ) (base : Option ℕ) → IsOrderly o → MayInsert o list node base
        → removed node (inserted list node base o.lists) ≡ o.lists }
{}

/// A node that is put into a list or taken out of one leaves all other lists as they were.
pub fn other_lists_stay()
    ensures inserted { (lists : List (List ℕ)) (list node i : ℕ) (base : Option ℕ) → i ≢ list
        → list_at i (inserted list node base lists) ≡ list_at i lists }
    ensures removed { (lists : List (List ℕ)) (node i : ℕ) → IsFalse (is_in node (list_at i lists))
        → list_at i (removed node lists) ≡ list_at i lists }
{}
