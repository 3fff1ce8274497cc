//! How what an attribute is set to is printed.

ghost use Rattle.std.specs.Prelude.{◌+◌, ◌*◌, ◌≤◌, length, map};
ghost use Rattle.wf_script.specs.Fields.{value_items, written};
ghost use Rattle.wf_script.specs.Spelled.{integer_word};
ghost use Rattle.wf_script.specs.Text.{Adds, extent};
ghost use Rattle.wf_script.specs.Token.{spaced};
ghost use Rattle.wf_script.specs.declared.line.Value.TheVariants.{Numbers};

use crate::WORD_ROOM;
use crate::field::Field;
use crate::line::Value;
use crate::text::Text;
use crate::token::{Shown, Token, add_all_shown, add_word};
use wf_io::Sink;

/// Adds numbers.
#[tactic(auto, using(crate::proofs::Additions::adds_none), unfolding(crate::specs::Token::spaced))]
fn add_numbers<K: Sink>(text: &mut Text, k: &mut K, numbers: &[i64])
    ensures adds { Adds K.took K.faults text.old k.old text.new k.new (spaced (map integer_word numbers.now)) }
    ensures most { extent text.new ≤ extent text.old + WORD_ROOM * length numbers.now }
{
    for number in numbers {
        add_word(text, k, &Token::Shown(Shown::Number(number)));
    }
}

/// Adds the numbers of a value by their kinds.
#[tactic(auto, using(crate::proofs::ValueText::numbers_written))]
fn add_numbers_by<K: Sink>(text: &mut Text, k: &mut K, fields: &[Field], numbers: &[i64; 4])
    requires { length fields.now ≤ 4 }
    ensures adds { Adds K.took K.faults text.old k.old text.new k.new (spaced (written (value_items fields.now (Numbers numbers.now)))) }
    ensures most { extent text.new ≤ extent text.old + 4 * WORD_ROOM }
{
    match fields.first() {
        Some(Field::Filter) => add_all_shown(text, k, &[Shown::Filter(numbers[0])]),
        Some(Field::Transparency) => add_all_shown(text, k, &[Shown::Transparency(numbers[0])]),
        _ => add_numbers(text, k, &numbers[..fields.len()]),
    }
}

/// Adds the words of a value by their kinds.
pub(crate) fn add_value<K: Sink>(text: &mut Text, k: &mut K, fields: &[Field], value: &Value)
    requires { length fields.now ≤ 4 }
    ensures adds { Adds K.took K.faults text.old k.old text.new k.new (spaced (written (value_items fields.now value.now))) }
    ensures most { extent text.new ≤ extent text.old + 4 * WORD_ROOM }
{
    match value {
        Value::Handle(handle) => add_all_shown(text, k, &[Shown::Handle(handle)]),
        Value::Numbers(numbers) => add_numbers_by(text, k, fields, numbers),
    }
}
