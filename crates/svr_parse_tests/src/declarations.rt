// Types, classes and variables: their trees with their heights, or their faults. Numbers are those of tokens.

use crate::text::{Told, is_told, spelled};
use crate::wanted::Wanted;
use std::alloc::Global;
use svr_decl::{class, typedef, var, var_on};
use svr_operator::Rand;
use svr_reader::Cursor;
use svr_tree::{
    AtomKind, ClassDecl, ClassItem, ConstraintBlock, DataType, Declarator, Dimension, EnumDecl,
    Expr, IntegerType, Item, PackedRange, PropertyDecl, Signing, TypeDecl, TypeDefinition, VarDecl,
    VarDeclarator, VarInit, VectorKind,
};

// ---- types

impl Wanted {
    fn signing(self, signing: Option<Signing>) -> Wanted {
        match signing {
            None => self,
            Some(Signing::Signed) => self.then(b" signed"),
            Some(Signing::Unsigned) => self.then(b" unsigned"),
        }
    }

    fn packed(self, range: &Option<PackedRange>) -> Wanted {
        match range {
            Some(range) => {
                let begun = self.then_token(b" [", range.at).then(b" ");
                begun
                    .expr_then(&range.msb, b":")
                    .expr_then(&range.lsb, b"]")
            }
            None => self,
        }
    }

    fn vector(self, kind: VectorKind) -> Wanted {
        match kind {
            VectorKind::Bit => self.then(b" bit"),
            VectorKind::Logic => self.then(b" logic"),
            VectorKind::Reg => self.then(b" reg"),
        }
    }

    fn atom(self, kind: AtomKind) -> Wanted {
        match kind {
            AtomKind::Byte => self.then(b" byte"),
            AtomKind::ShortInt => self.then(b" shortint"),
            AtomKind::Int => self.then(b" int"),
            AtomKind::LongInt => self.then(b" longint"),
            AtomKind::Integer => self.then(b" integer"),
        }
    }

    fn integer(self, found: &IntegerType) -> Wanted {
        match found {
            IntegerType::Vector {
                at,
                kind,
                signing,
                range,
            } => self
                .token(*at)
                .vector(*kind)
                .signing(*signing)
                .packed(range),
            IntegerType::Atom { at, kind, signing } => {
                self.token(*at).atom(*kind).signing(*signing)
            }
        }
    }

    fn data_type(self, found: &DataType) -> Wanted {
        match found {
            DataType::Integer(found) => self.integer(found),
            DataType::Named(name) => self.then_token(b"named ", *name),
        }
    }

    fn value(self, value: &Option<Expr>) -> Wanted {
        match value {
            Some(value) => self.then_expr(b"=", value),
            None => self,
        }
    }
}

// ---- variables

impl Wanted {
    fn start(self, init: &Option<VarInit>) -> Wanted {
        match init {
            None => self,
            Some(VarInit::Value(value)) => self.then_expr(b"=", value),
            Some(VarInit::New { parens: true }) => self.then(b"=new()"),
            Some(VarInit::New { parens: false }) => self.then(b"=new"),
        }
    }

    fn variables(self, found: &[VarDeclarator]) -> Wanted {
        let mut wanted = self;
        for one in found {
            wanted = wanted.then_token(b" ", one.name).start(&one.init);
        }
        wanted
    }
}

impl Told for VarDecl {
    fn told(&self, wanted: Wanted, height: usize, _left: usize) -> Wanted {
        let declared = wanted.data_type(&self.kind).variables(self.vars.as_slice());
        declared.then_number(b" high ", height)
    }
}

fn is_var(alloc: Global, text: &[u8], room: usize, wanted: &'static [u8]) -> bool {
    let lexemes = spelled(alloc, text);
    let mut cursor = Cursor::new(&lexemes);
    let found = var(alloc, &mut cursor, room);
    is_told(found, cursor.left(), wanted)
}

fn is_var_on(alloc: Global, text: &[u8], name: u32, wanted: &'static [u8]) -> bool {
    let lexemes = spelled(alloc, text);
    let mut cursor = Cursor::new(&lexemes);
    let found = var_on(alloc, &mut cursor, 2, name);
    is_told(found, cursor.left(), wanted)
}

const VARIABLES: &[(&[u8], usize, &[u8])] = &[
    (b"bit n;", 2, b"0 bit 1 high 0"),
    (b"bit [n:1] n;", 2, b"0 bit [1 2:#4] 6 high 1"),
    (b"logic signed n;", 2, b"0 logic signed 2 high 0"),
    (
        b"reg unsigned [1:n] n;",
        2,
        b"0 reg unsigned [2 #3:5] 7 high 1",
    ),
    (b"byte n;", 2, b"0 byte 1 high 0"),
    (b"shortint signed n;", 2, b"0 shortint signed 2 high 0"),
    (b"int unsigned n;", 2, b"0 int unsigned 2 high 0"),
    (b"longint n;", 2, b"0 longint 1 high 0"),
    (b"integer n;", 2, b"0 integer 1 high 0"),
    (b"n n;", 2, b"named 0 1 high 0"),
    (b"p a, b = new;", 0, b"named 0 1 3=new high 0"),
    (b"int a = 1 + 1;", 2, b"0 int 1=3op high 2"),
    (b"int a = 1 + 1;", 1, b"deep 3"),
    (b"byte [1:1] n;", 2, b"unexpected 7"),
    (b"n n = new(1);", 2, b"unexpected 3"),
];

#[test]
fn variables(rt: HostRuntime) {
    for (text, room, wanted) in VARIABLES {
        assert!(rt; is_var(rt.alloc(), text, *room, wanted));
    }
    assert!(rt; is_var_on(rt.alloc(), b"a = new();", 7, b"named 7 0=new() high 0"));
}

// ---- typedefs

impl Wanted {
    fn enumeration(self, found: &EnumDecl) -> Wanted {
        let begun = self.then(b"enum ");
        let mut wanted = match &found.base {
            Some(base) => begun.integer(base).then(b" {"),
            None => begun.then(b" {"),
        };
        for member in found.members.as_slice() {
            wanted = wanted.then_token(b" ", member.name).value(&member.value);
        }
        wanted.then(b" }")
    }
}

impl Told for TypeDecl {
    fn told(&self, wanted: Wanted, _height: usize, _left: usize) -> Wanted {
        let defined = match &self.definition {
            TypeDefinition::Integer(plain) => wanted.integer(plain),
            TypeDefinition::Enum(list) => wanted.enumeration(list),
        };
        defined.then_token(b" ", self.name)
    }
}

fn is_typedef(alloc: Global, text: &[u8], wanted: &'static [u8]) -> bool {
    let lexemes = spelled(alloc, text);
    let mut cursor = Cursor::new(&lexemes);
    let found = typedef(alloc, &mut cursor, 2);
    is_told(found, cursor.left(), wanted)
}

const TYPEDEFS: &[(&[u8], &[u8])] = &[
    (b"typedef enum { a, b = 1 } c;", b"enum  { 3 5=#7 } 9"),
    (
        b"typedef enum bit [1:1] { a } c;",
        b"enum 2 bit [3 #4:#6] { 9 } 11",
    ),
    (b"typedef byte unsigned n;", b"1 byte unsigned 3"),
    (b"typedef n n;", b"unexpected 3"),
    (b"typedef enum { } n;", b"unexpected 3"),
];

#[test]
fn typedefs(rt: HostRuntime) {
    for (text, wanted) in TYPEDEFS {
        assert!(rt; is_typedef(rt.alloc(), text, wanted));
    }
}

// ---- classes

impl Wanted {
    fn dimension(self, dim: &Dimension) -> Wanted {
        match dim {
            Dimension::Dynamic => self.then(b"[]"),
            Dimension::Queue => self.then(b"[$]"),
            Dimension::Size(size) => self.then_expr(b"[", size).then(b"]"),
            Dimension::Bounds(first, last) => {
                self.then_expr(b"[", first).then_expr(b":", last).then(b"]")
            }
        }
    }

    fn declarator(self, found: &Declarator) -> Wanted {
        let mut wanted = self.then_token(b" ", found.name);
        for dim in found.dims.as_slice() {
            wanted = wanted.dimension(dim);
        }
        wanted.value(&found.value)
    }

    fn rand(self, rand: Rand) -> Wanted {
        match rand {
            Rand::State => self.then(b" state "),
            Rand::Rand => self.then(b" rand "),
            Rand::Randc => self.then(b" randc "),
        }
    }

    fn property(self, found: &PropertyDecl) -> Wanted {
        let mut wanted = self.rand(found.rand).data_type(&found.kind);
        for one in found.decls.as_slice() {
            wanted = wanted.declarator(one);
        }
        wanted.then(b";")
    }

    // its name, how many items it has, and the expression of the first one
    fn block(self, found: &ConstraintBlock) -> Wanted {
        let named = self.then_token(b" constraint ", found.name).then(b" {");
        let counted = named.number_then(found.items.len(), b": ");
        match found.items.get(0) {
            Some(Item::Plain { expr, .. }) => counted.expr_then(expr, b"}"),
            _ => counted.then(b"}"),
        }
    }

    fn class_items(self, items: &[ClassItem]) -> Wanted {
        let mut wanted = self;
        for item in items {
            wanted = match item {
                ClassItem::Property(list) => wanted.property(list),
                ClassItem::Constraint(block) => wanted.block(block),
            };
        }
        wanted
    }

    fn name(self, word: &[u8], name: Option<u32>) -> Wanted {
        match name {
            Some(name) => self.then_token(word, name),
            None => self,
        }
    }
}

impl Told for ClassDecl {
    fn told(&self, wanted: Wanted, height: usize, _left: usize) -> Wanted {
        let begun = wanted
            .token(self.name)
            .name(b" extends ", self.base)
            .then(b";");
        let ended = begun
            .class_items(self.items.as_slice())
            .name(b" : ", self.label);
        ended.then_number(b" high ", height)
    }
}

fn is_class(alloc: Global, text: &[u8], wanted: &'static [u8]) -> bool {
    let lexemes = spelled(alloc, text);
    let mut cursor = Cursor::new(&lexemes);
    let found = class(alloc, &mut cursor, 3);
    is_told(found, cursor.left(), wanted)
}

const CLASSES: &[(&[u8], &[u8])] = &[
    (
        b"class p; rand bit a []; randc byte b [$]; int c [1], d [1:e] = 1; endclass",
        b"1; rand 4 bit 5[]; randc 10 byte 11[$]; state 16 int 17[#19] 22[#24:26]=#29; high 1",
    ),
    (
        b"class p; bit m [2][n], r [0:1][n:3] = 1 + n; endclass",
        b"1; state 3 bit 4[#6][9] 12[#14:#16][19:#21]=24op; high 2",
    ),
    (
        b"class p; bit m [][$], r [$][2]; endclass",
        b"1; state 3 bit 4[][$] 11[$][#16]; high 1",
    ),
    (b"class p; bit m [2][2][2]; endclass", b"unexpected 5"),
    (b"class p; bit m [2][; endclass", b"unexpected 2"),
    (b"class p; bit m [2][1:]; endclass", b"unexpected 3"),
    (
        b"class p; bit m [2][((2))]; endclass",
        b"1; state 3 bit 4[#6][other]; high 3",
    ),
    (b"class p; bit m [2][(((2)))]; endclass", b"deep 8"),
    (b"class p; endclass", b"1; high 0"),
    (
        b"class p extends b; endclass : p",
        b"1 extends 3; : 7 high 0",
    ),
    (
        b"class p; constraint c { a + 1; } endclass",
        b"1; constraint 4 {1: 6op} high 3",
    ),
    (b"class p;", b"unexpected 0"),
    (b"class p; rand rand bit a; endclass", b"unexpected 5"),
];

#[test]
fn classes(rt: HostRuntime) {
    for (text, wanted) in CLASSES {
        assert!(rt; is_class(rt.alloc(), text, wanted));
    }
}
