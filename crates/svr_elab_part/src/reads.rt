// What expressions read.

ghost use Rattle.std.specs.Prelude.{◌≡◌};
ghost use Rattle.svr_elab_part.specs.Shapes as shapes;

use crate::part::Reads;
use svr_elab_names::Property;
use svr_operator::Rand;

impl Reads {
    /// Numbers, enum members and operators alone.
    pub fn only_numbers() -> Reads
        ensures { result ≡ shapes.only_numbers }
    {
        Reads {
            constant: true,
            random: false,
            sized: false,
            cyclic: false,
        }
    }

    /// A value or elements of a property.
    pub fn of_property(property: Property) -> Reads
        ensures { result ≡ shapes.property_reads property }
    {
        Reads {
            constant: false,
            random: property.random,
            sized: false,
            cyclic: is_randc(property.rand),
        }
    }

    /// The size of an array.
    pub fn of_size(property: Property) -> Reads
        ensures { result ≡ shapes.size_reads property }
    {
        Reads {
            constant: false,
            random: false,
            sized: property.random,
            cyclic: is_randc(property.rand),
        }
    }

    /// What both read together.
    pub fn and(self, other: Reads) -> Reads
        ensures { result ≡ shapes.and_reads self other }
    {
        Reads {
            constant: self.constant && other.constant,
            random: self.random || other.random,
            sized: self.sized || other.sized,
            cyclic: self.cyclic || other.cyclic,
        }
    }

    /// The same in an expression that is no constant by its form.
    pub fn no_constant(self) -> Reads
        ensures { result ≡ shapes.no_constant self }
    {
        Reads {
            constant: false,
            ..self
        }
    }

    /// Whether a property that can be random is read, or the size of one.
    pub fn is_open(self) -> bool
        ensures { result ≡ shapes.is_open self }
    {
        self.random || self.sized
    }
}

/// Whether a property is cyclic (18.4.2).
pub fn is_randc(rand: Rand) -> bool
    ensures { result ≡ shapes.is_randc rand }
{
    match rand {
        Rand::State | Rand::Rand => false,
        Rand::Randc => true,
    }
}
