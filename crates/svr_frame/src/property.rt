// What a frame says of a property (IEEE 1800-2017, 18.4).

ghost use Rattle.std.specs.Prelude.{◌≡◌, not, false, None, map, option_map, length, slice_index, slice_index_or};
ghost use Rattle.svr_typed.specs.declared.class.Prop.{Prop};
ghost use Rattle.svr_typed.specs.declared.class.EnumMember.{EnumMember};
ghost use Rattle.svr_frame.specs.Frame as spec;
ghost use Rattle.svr_frame.specs.Frame.{frame_term};

use crate::frame::Frame;
use svr_operator::Rand;
use svr_typed::{ArrayKind, EnumMember};

impl Frame {
    /// Whether a property is an array. A number that names no property is no scalar.
    pub fn is_array(&self, prop: u32) -> bool
        ensures { result ≡ spec.is_array (frame_term self.now) prop }
    {
        match self.class.props.as_slice().get(prop as usize) {
            Some(declared) => is_array_kind(declared.array),
            None => true,
        }
    }

    /// Whether a property is random in this call.
    pub fn is_random(&self, prop: u32) -> bool
        ensures { result ≡ spec.is_random (frame_term self.now) prop }
    {
        match self.random.as_slice().get(prop as usize) {
            Some(random) => *random,
            None => false,
        }
    }

    /// Whether a property is cyclic random in this call (IEEE 1800-2017, 18.4.2).
    pub fn is_cyclic(&self, prop: u32) -> bool
        ensures { result ≡ spec.is_cyclic (frame_term self.now) prop }
    {
        self.is_random(prop) && self.is_declared_cyclic(prop)
    }

    fn is_declared_cyclic(&self, prop: u32) -> bool
        ensures { result ≡ slice_index_or (map (λ (x : Prop). spec.is_randc x.rand) (frame_term self.now).class.props) prop false }
    {
        match self.class.props.as_slice().get(prop as usize) {
            Some(declared) => is_randc(declared.rand),
            None => false,
        }
    }

    /// Whether a property is random in some call of the script (IEEE 1800-2017, 18.4 and 18.11).
    pub fn can_be_random(&self, prop: u32) -> bool
        ensures { result ≡ spec.can_be_random (frame_term self.now) prop }
    {
        match self.class.props.as_slice().get(prop as usize) {
            Some(declared) => declared.can,
            None => false,
        }
    }

    /// Whether this call chooses the size of an array.
    pub fn has_free_size(&self, prop: u32) -> bool
        ensures { result ≡ spec.has_free_size (frame_term self.now) prop }
    {
        match self.free_size.as_slice().get(prop as usize) {
            Some(free) => *free,
            None => false,
        }
    }

    /// The width of a property's type, or of that of its elements, 0 where there is none.
    pub fn width(&self, prop: u32) -> u8
        ensures { result ≡ spec.width_of (frame_term self.now) prop }
    {
        match self.class.props.as_slice().get(prop as usize) {
            Some(declared) => declared.kind.width,
            None => 0,
        }
    }

    /// Whether a property's type, or that of its elements, is signed.
    pub fn is_signed(&self, prop: u32) -> bool
        ensures { result ≡ spec.is_signed (frame_term self.now) prop }
    {
        match self.class.props.as_slice().get(prop as usize) {
            Some(declared) => declared.kind.signed,
            None => false,
        }
    }

    /// The number of the enum whose members a property takes (IEEE 1800-2017, 6.19).
    pub fn enum_of(&self, prop: u32) -> Option<u32>
        ensures { result ≡ slice_index_or (map (λ (x : Prop). x.kind.members) (frame_term self.now).class.props) prop None }
    {
        match self.class.props.as_slice().get(prop as usize) {
            Some(declared) => declared.kind.members,
            None => None,
        }
    }

    /// How many members the enum of a property has; none is there for other types.
    pub fn member_count(&self, prop: u32) -> Option<usize>
        ensures { result ≡ option_map length (spec.members_of (frame_term self.now) prop) }
    {
        match self.enum_of(prop) {
            Some(at) => Some(self.enum_size(at)),
            None => None,
        }
    }

    /// How many members an enum has, 0 where there is none of this number.
    pub fn enum_size(&self, at: u32) -> usize
        ensures { result ≡ length (spec.members_of_enum (frame_term self.now) at) }
    {
        match self.enums.as_slice().get(at as usize) {
            Some(kind) => kind.members.len(),
            None => 0,
        }
    }

    /// The value of a member of an enum, 0 where there is none.
    pub fn enum_value(&self, at: u32, member: usize) -> u64
        ensures { result ≡ slice_index (spec.members_of_enum (frame_term self.now) at) member }
    {
        match self.enums.as_slice().get(at as usize) {
            Some(kind) => member_value(kind.members.as_slice(), member),
            None => 0,
        }
    }
}

fn is_array_kind(kind: ArrayKind) -> bool
    ensures { result ≡ not (spec.is_scalar_kind kind) }
{
    match kind {
        ArrayKind::Scalar => false,
        ArrayKind::Fixed(_) | ArrayKind::Dynamic => true,
    }
}

fn is_randc(rand: Rand) -> bool
    ensures { result ≡ spec.is_randc rand }
{
    match rand {
        Rand::Randc => true,
        Rand::State | Rand::Rand => false,
    }
}

fn member_value(members: &[EnumMember], at: usize) -> u64
    ensures { result ≡ slice_index (map (λ (m : EnumMember). m.value) members.now) at }
{
    match members.get(at) {
        Some(member) => member.value,
        None => 0,
    }
}

/// The size at a place of a list of sizes, 0 where there is none.
pub fn size_at(sizes: &[u32], prop: u32) -> u32
    ensures { result ≡ slice_index sizes.now prop }
{
    match sizes.get(prop as usize) {
        Some(size) => *size,
        None => 0,
    }
}
