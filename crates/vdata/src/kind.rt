// The kinds of values.
ghost use Rattle.std.specs.Prelude.{◌≡◌};
ghost use Rattle.vdata.specs.Kinds.{number_of};
ghost use Rattle.vdata.specs.Patterns as Patterns;

use records::scalar;

#[derive(Clone, Copy, PartialEq, Eq)]
pub enum Kind {
    Signed = 1,

    // An unsigned number, or a character.
    Unsigned = 2,

    // A float of 32 bits.
    Float32 = 3,

    // A float of 64 bits.
    Float64 = 4,
}

impl Kind {
    // Its number.
    pub fn number(self) -> u64
        ensures { result ≡ number_of self }
    {
        self as u64
    }
}

// The kind of a type's values.
#[tactic(auto, unfolding(crate::specs::Patterns::type_kind, crate::specs::Patterns::kind_number, records::specs::Types::kind_of, records::specs::Types::width_of, records::specs::Types::row_of))]
pub(crate) fn of_type(code: usize) -> Kind
    ensures { number_of result ≡ Patterns.type_kind code }
{
    match scalar::base_type(code) {
        20 | 22 | 24 => Kind::Signed,
        5 => Kind::Float32,
        6 => Kind::Float64,
        _ => Kind::Unsigned,
    }
}
