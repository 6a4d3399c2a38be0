// What can be named where the expressions stand.

ghost use Rattle.std.specs.Prelude.{◌≡◌, map, IfOk};
ghost use Rattle.svr_elab_names.specs.Names.{GlobalName};
ghost use Rattle.svr_elab_names.specs.Tables.{global_of};
ghost use Rattle.svr_elab_part.specs.Fits.{Each, GlobalFits};

use indexmap::IndexMap;
use std::alloc::{AllocError, Global};
use svr_elab_names::{Dims, Global as Stands, PropEntry, Property, VarStand, Vector};
use svr_operator::Rand;
use svr_typed::NumType;

fn bits(width: u8, signed: bool, low: i64) -> Vector {
    let kind = NumType {
        width,
        signed,
        members: None,
    };
    Vector { kind, low }
}

fn property(number: u32, kind: Vector, rand: Rand, dims: Dims) -> PropEntry {
    let property = Property {
        number,
        home: 0,
        kind: Some(kind),
        rand,
        random: rand != Rand::State,
        dims,
    };
    PropEntry { property, first: 0 }
}

// a property: its name, its width and sign, the number of its lowest bit, its `rand`, and its dimensions
type Row = (&'static [u8], u8, bool, i64, Rand, Dims);

const PROPERTIES: &[Row] = &[
    (b"a", 4, false, 0, Rand::Rand, Dims::Scalar),
    (b"v", 8, false, 0, Rand::State, Dims::Scalar),
    (b"h", 8, false, 4, Rand::State, Dims::Scalar),
    (b"n", 32, true, 0, Rand::State, Dims::Scalar),
    (b"d", 8, false, 0, Rand::Rand, Dims::Dynamic),
    (b"m", 4, false, 0, Rand::State, Dims::Rows(Some(2), Some(3))),
];

/// `rand bit [3:0] a; bit [7:0] v; bit [11:4] h; int n; rand bit [7:0] d[]; bit [3:0] m[2][3];`
pub fn properties<'a>(alloc: Global) -> Result<IndexMap<&'a [u8], PropEntry>, AllocError> {
    let mut found = IndexMap::new(alloc);
    let mut number = 0u32;
    for (name, width, signed, low, rand, dims) in PROPERTIES {
        let kind = bits(*width, *signed, *low);
        found.insert(*name, property(number, kind, *rand, *dims))?;
        number = number.saturating_add(1);
    }
    Ok(found)
}

/// An enum of 4 bits with the member `e`, which is 1.
pub fn members<'a>(alloc: Global) -> Result<IndexMap<&'a [u8], Stands>, AllocError>
    ensures { IfOk result (λ m. Each (λ (g : GlobalName). GlobalFits g.stands) (map global_of m.entries)) }
{
    let mut found = IndexMap::new(alloc);
    let kind = NumType {
        width: 4,
        signed: false,
        members: Some(0),
    };
    let member = Stands::OfMember(Some(1), Some(Vector { kind, low: 0 }));
    found.insert(b"e".as_slice(), member)?;
    Ok(found)
}

// object variables of the class
const OBJECTS: &[&[u8]] = &[b"p", b"q"];

/// Two object variables of the class, `p` and `q`, and `int c`.
pub fn variables<'a>(alloc: Global) -> Result<IndexMap<&'a [u8], VarStand>, AllocError> {
    let mut found = IndexMap::new(alloc);
    for name in OBJECTS {
        found.insert(*name, VarStand::OfObject(0))?;
    }
    let number = VarStand::OfNumber(Some(bits(32, true, 0)));
    found.insert(b"c".as_slice(), number)?;
    Ok(found)
}
