//! The numbers that stand for themselves among the arguments of a message.

ghost use Rattle.std.specs.Prelude.{◌≡◌, ◌<◌};
ghost use Rattle.wf_wire.specs.Bits.{bit_at, handle_at, number_at, values_at};

/// Returns the bits of the argument at a place, or 0 where there is none.
pub(crate) fn bit_at(bits: &[u64], place: usize) -> u64
    ensures { result ≡ bit_at bits.now place }
{
    match bits.get(place) {
        Some(found) => *found,
        None => 0,
    }
}

/// Returns the number at a place, in two's complement.
pub(crate) fn number_at(bits: &[u64], place: usize) -> i64
    ensures { result ≡ number_at bits.now place }
{
    bit_at(bits, place).cast_signed()
}

/// Returns the four numbers from a place on.
pub(crate) fn values_at(bits: &[u64], place: usize) -> [i64; 4]
    requires { place < 8 }
    ensures { result ≡ values_at bits.now place }
{
    [
        number_at(bits, place),
        number_at(bits, place + 1),
        number_at(bits, place + 2),
        number_at(bits, place + 3),
    ]
}

/// Returns the handle at a place: the lowest 32 bits of it.
pub(crate) fn handle_at(bits: &[u64], place: usize) -> u32
    ensures { result ≡ handle_at bits.now place }
{
    (bit_at(bits, place) % 4_294_967_296) as u32
}
