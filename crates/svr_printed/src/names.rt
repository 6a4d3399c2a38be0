// Names of properties and of members of enums.

ghost use Rattle.std.specs.Prelude.{◌≡◌, [], None, Some, MatchOption, map, slice_index_or};
ghost use Rattle.svr_typed.specs.declared.class.EnumType.{EnumType};
ghost use Rattle.svr_frame.specs.Frame.{frame_term};
ghost use Rattle.svr_stream.specs.Puts.{Puts, place};
ghost use Rattle.svr_script.specs.Printed as spec;

use svr_edge::Sink;
use svr_frame::Frame;
use svr_stream::Pending;
use svr_typed::{EnumMember, EnumType, Prop};

/// The name of the first member with a value.
fn member_of(members: &[EnumMember], value: u64) -> Option<&[u8]>
    ensures { MatchOption result (spec.member_of members.now value ≡ None) (λ name. spec.member_of members.now value ≡ Some name.now) }
{
    let mut left = members;
    while let [member, others @ ..] = left {
        if member.value == value {
            return Some(member.name.as_bytes());
        }
        left = others;
    }
    None
}

/// The members of an enum, none where there is no enum of this number.
fn members_at(enums: &[EnumType], at: u32) -> &[EnumMember]
    ensures { result.now ≡ slice_index_or (map (λ (t : EnumType). t.members) enums.now) at [] }
{
    match enums.get(at as usize) {
        Some(kind) => kind.members.as_slice(),
        None => &[],
    }
}

/// The name of the member with a value of an enum, where there is an enum.
pub(crate) fn member_name(enums: &[EnumType], at: Option<u32>, value: u64) -> Option<&[u8]>
    ensures { MatchOption result (spec.member_name enums.now at value ≡ None) (λ name. spec.member_name enums.now at value ≡ Some name.now) }
{
    match at {
        None => None,
        Some(at) => member_of(members_at(enums, at), value),
    }
}

/// The name of a property, empty where there is none.
fn prop_name(frame: &Frame, prop: u32) -> &[u8]
    ensures { result.now ≡ spec.prop_name (frame_term frame.now) prop }
{
    match frame.class.props.as_slice().get(prop as usize) {
        Some(declared) => declared.name.as_bytes(),
        None => &[],
    }
}

/// The name of a property.
pub(crate) fn put_name<K: Sink>(text: &mut Pending, out: &mut K, frame: &Frame, prop: u32)
    ensures { Puts (place (K.written out.old) (K.faults out.old) text.old) (place (K.written out.new) (K.faults out.new) text.new)
        (spec.prop_name (frame_term frame.now) prop) }
{
    text.put(out, prop_name(frame, prop));
}

/// The name of a property as it was declared.
pub(crate) fn put_declared<K: Sink>(text: &mut Pending, out: &mut K, prop: &Prop)
    ensures { Puts (place (K.written out.old) (K.faults out.old) text.old) (place (K.written out.new) (K.faults out.new) text.new)
        prop.now.name }
{
    text.put(out, prop.name.as_bytes());
}
