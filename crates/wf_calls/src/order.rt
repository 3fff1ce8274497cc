//! The journal's entries, and the order that they make.

ghost use Rattle.std.specs.Prelude.{◌≡◌};
ghost use Rattle.std.specs.List.{AllByRecursion};
ghost use Rattle.wf_calls.specs.Orders.{IsEntry};

use std::marker::Model;

/// An entry of the journal: a client, the number of the answer's code, and the answer's value.
#[derive(Clone, Copy, Debug, Default, PartialEq, Eq)]
pub struct Turn {
    pub client: u8,
    pub code: u8,
    pub value: u32,
}

/// The order in which the events of a run happened.
#[derive(Drop)]
pub struct Order {
    turns: Vec<Turn>,
}

impl Model for Order {
    ghost use Rattle.std.specs.Prelude.{List};
    ghost use Rattle.wf_calls.specs.declared.order.Turn.{Turn};

    ghost Value = { List Turn };

    ghost view = { λ o. o.turns.items };
}

impl Order {
    /// Makes the order of these `turns`. Nothing is copied.
    pub fn new(turns: Vec<Turn>) -> Order
        ensures turns { result ≡ turns.items }
        ensures values { AllByRecursion IsEntry result }
    {
        prove_values(&turns);
        Order { turns }
    }

    /// Returns the turns, the first event first.
    pub fn turns(&self) -> &[Turn]
        ensures { result.now ≡ self.now }
    {
        &self.turns
    }
}

/// Shows that the values of all `turns` are in the range of their type. It changes nothing.
fn prove_values(turns: &[Turn])
    ensures { AllByRecursion IsEntry turns.now }
{
    for turn in turns {
        prove_value(turn);
    }
}

/// Shows that the value of `turn` is in the range of its type. It changes nothing.
fn prove_value(turn: &Turn)
    ensures { IsEntry turn.now }
{
    let _value = turn.value;
}
