// What an expression is by its form.

ghost use Rattle.std.specs.Prelude.{◌≡◌};
ghost use Rattle.svr_elab_part.specs.Forms as forms;
ghost use Rattle.svr_elab_part.specs.Shapes as shapes;
ghost use Rattle.svr_elab_part.specs.Elab as spec;

use crate::part::{Extent, Form, Root};
use svr_elab_names::{Dims, Meaning, Property, Vector};

impl Extent {
    /// Whether it is one number.
    pub fn is_single(self) -> bool
        ensures { result ≡ forms.is_single self }
    {
        match self {
            Extent::Single => true,
            Extent::Row | Extent::Whole => false,
        }
    }

    /// Whether it is a row of an array of two dimensions.
    pub fn is_row(self) -> bool
        ensures { result ≡ forms.is_row self }
    {
        match self {
            Extent::Row => true,
            Extent::Single | Extent::Whole => false,
        }
    }

    /// Whether it is a whole array.
    pub fn is_whole(self) -> bool
        ensures { result ≡ forms.is_whole self }
    {
        match self {
            Extent::Whole => true,
            Extent::Single | Extent::Row => false,
        }
    }

    fn without_row(self) -> Extent
        ensures { result ≡ forms.without_row self }
    {
        if self.is_row() { Extent::Single } else { self }
    }

    fn of_property(dims: Dims) -> Extent
        ensures { result ≡ forms.property_extent dims }
    {
        if dims.is_array() {
            Extent::Whole
        } else {
            Extent::Single
        }
    }

    /// What one index leaves of an array.
    pub fn of_element(dims: Dims) -> Extent
        ensures { result ≡ forms.element_extent dims }
    {
        match dims {
            Dims::Rows(_, _) => Extent::Row,
            Dims::Scalar | Dims::Fixed(_) | Dims::Dynamic => Extent::Single,
        }
    }
}

impl Root {
    /// Whether it is a handle of an object.
    pub fn is_object(self) -> bool
        ensures { result ≡ forms.is_object self }
    {
        match self {
            Root::Object(_, _) => true,
            Root::Nothing | Root::Refused | Root::Member | Root::Variable(_) | Root::Field(_, _) =>
                false,
        }
    }

    /// Whether the name was refused.
    pub fn is_refused(self) -> bool
        ensures { result ≡ forms.is_refused self }
    {
        match self {
            Root::Refused => true,
            Root::Nothing
            | Root::Member
            | Root::Variable(_)
            | Root::Field(_, _)
            | Root::Object(_, _) => false,
        }
    }

    /// Whether it is a property of an object variable.
    pub fn is_in_object(self) -> bool
        ensures { result ≡ spec.is_in_object self }
    {
        match self {
            Root::Field(_, object) => object.is_some(),
            Root::Nothing | Root::Refused | Root::Member | Root::Variable(_) | Root::Object(_, _) =>
                false,
        }
    }

    /// The property of an array, as far as it is known.
    pub fn property(self) -> Property
        ensures { result ≡ shapes.array_property self }
    {
        match self {
            Root::Field(property, _) => property,
            Root::Nothing | Root::Refused | Root::Member | Root::Variable(_) | Root::Object(_, _) =>
                Property::unknown(),
        }
    }

    fn without_object(self) -> Root
        ensures { result ≡ forms.without_object self }
    {
        if self.is_object() {
            Root::Nothing
        } else {
            self
        }
    }
}

impl Form {
    /// That of an expression that is no path and no select of one.
    pub fn other(at: u32) -> Form
        ensures { result ≡ forms.other_form at }
    {
        Form {
            name: at,
            root: Root::Nothing,
            extent: Extent::Single,
            bits: false,
            low: 0,
            members: None,
            random_index: None,
        }
    }

    fn rooted(name: u32, root: Root, extent: Extent, kind: Option<Vector>) -> Form
        ensures { result ≡ forms.rooted name root extent kind }
    {
        let (low, members) = match kind {
            None => (0, None),
            Some(kind) => (kind.low, kind.kind.members),
        };
        Form {
            name,
            root,
            extent,
            bits: false,
            low,
            members,
            random_index: None,
        }
    }

    /// That of a path by what it stands for.
    pub fn of_meaning(name: u32, meaning: Meaning) -> Form
        ensures { result ≡ forms.meaning_form name meaning }
    {
        match meaning {
            Meaning::Wrong { .. } => Form::rooted(name, Root::Refused, Extent::Single, None),
            Meaning::LoopOf { .. } | Meaning::SizeOf { .. } | Meaning::FoldOf { .. } => {
                Form::other(name)
            }
            Meaning::ItemOf { property, .. } => {
                Form::rooted(name, Root::Nothing, Extent::Single, property.kind)
            }
            Meaning::MemberOf { kind, .. } => {
                Form::rooted(name, Root::Member, Extent::Single, kind)
            }
            Meaning::PropertyOf { property, object } => Form::rooted(
                name,
                Root::Field(property, object),
                Extent::of_property(property.dims),
                property.kind,
            ),
            Meaning::VariableOf { number, kind } => {
                Form::rooted(name, Root::Variable(number), Extent::Single, kind)
            }
            Meaning::ObjectOf { number, class } => {
                Form::rooted(name, Root::Object(number, class), Extent::Single, None)
            }
        }
    }

    /// With one index behind it, whose first token is `index` where it can be random.
    pub fn indexed(self, extent: Extent, index: Option<u32>) -> Form
        ensures { result ≡ forms.indexed_form self extent index }
    {
        let random_index = match self.random_index {
            None => index,
            Some(first) => Some(first),
        };
        Form {
            extent,
            bits: false,
            random_index,
            ..self
        }
    }

    /// With bits selected.
    pub fn of_bits(self) -> Form
        ensures { result ≡ forms.bits_form self }
    {
        Form {
            extent: Extent::Single,
            bits: true,
            low: 0,
            members: None,
            ..self
        }
    }

    /// Where a value is wanted.
    pub fn plain(self) -> Form
        ensures { result ≡ forms.plain_form self }
    {
        Form {
            root: self.root.without_object(),
            extent: Extent::Single,
            ..self
        }
    }

    /// Where an array may stand as well.
    pub fn sole(self) -> Form
        ensures { result ≡ forms.sole_form self }
    {
        Form {
            root: self.root.without_object(),
            extent: self.extent.without_row(),
            ..self
        }
    }
}
