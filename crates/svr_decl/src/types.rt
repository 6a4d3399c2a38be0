// Types.

ghost use Rattle.std.specs.Prelude.{◌≡◌, ◌≤◌, IfOk, option_map};
ghost use Rattle.svr_tree.specs.DeclTree.{packed_tree, integer_tree, type_tree};
ghost use Rattle.svr_reader.specs.Answers.{Answers, Gives};
ghost use Rattle.svr_reader.specs.Calls.{cap, height_view};
ghost use Rattle.svr_decl.specs.DeclRules as rules;

use crate::held::let_go;
use crate::reader::Reader;
use svr_item::ended;
use svr_reader::{Cursor, Fixed, ReadFault};
use svr_token::{Lexeme, Mark, Word};
use svr_tree::{AtomKind, DataType, IntegerType, PackedRange, Signing, VectorKind};

/// Whether a token begins an integer type (IEEE 1800-2017, A.2.2.1). None is the end of the text.
pub fn starts_type(lexeme: Option<Lexeme>) -> bool
    ensures { result ≡ rules.starts_type lexeme }
{
    match lexeme {
        Some(Lexeme::Word(Word::Bit)) => true,
        Some(Lexeme::Word(Word::Logic)) => true,
        Some(Lexeme::Word(Word::Reg)) => true,
        Some(Lexeme::Word(Word::Byte)) => true,
        Some(Lexeme::Word(Word::ShortInt)) => true,
        Some(Lexeme::Word(Word::Int)) => true,
        Some(Lexeme::Word(Word::LongInt)) => true,
        Some(Lexeme::Word(Word::Integer)) => true,
        _ => false,
    }
}

/// Whether a token begins an integer type or is a name, which may be that of a type or class. None is the end of the text.
pub fn starts_var(lexeme: Option<Lexeme>) -> bool
    ensures { result ≡ rules.starts_var lexeme }
{
    match lexeme {
        Some(Lexeme::Name(_)) => true,
        _ => starts_type(lexeme),
    }
}

impl Reader {
    #[tactic(auto, unfolding(crate::specs::DeclRules::signing))]
    fn signing(&self, cursor: &mut Cursor<'_>) -> Result<Option<Signing>, ReadFault>
        ensures { Answers (λ s. s) (rules.within cap self.now.room rules.signing cursor.old) result cursor.new }
    {
        match cursor.peek() {
            Some(Lexeme::Word(Word::Signed)) => {
                cursor.take()?;
                Ok(Some(Signing::Signed))
            }
            Some(Lexeme::Word(Word::Unsigned)) => {
                cursor.take()?;
                Ok(Some(Signing::Unsigned))
            }
            _ => Ok(None),
        }
    }

    // Behind `[`, which is the token `at`.
    #[tactic(auto, unfolding(crate::specs::DeclRules::packed_on))]
    fn packed_on(
        &self,
        cursor: &mut Cursor<'_>,
        at: u32,
    ) -> Result<(Option<PackedRange>, usize), ReadFault>
        ensures gives { Gives (height_view (option_map packed_tree)) (rules.within cap self.now.room (rules.packed_on at) cursor.old) result cursor.new }
        ensures low { IfOk result (λ x. x.1 ≤ self.now.room) }
    {
        let (msb, msb_height) = self.expression(cursor)?;
        let msb = ended(cursor, msb, Fixed::Mark(Mark::Colon))?;
        match self.expression(cursor) {
            Ok((lsb, lsb_height)) => {
                let range = PackedRange { at, msb, lsb };
                let found = (Some(range), msb_height.max(lsb_height));
                ended(cursor, found, Fixed::Mark(Mark::CloseBracket))
            }
            Err(fault) => Err(let_go(msb, fault)),
        }
    }

    #[tactic(auto, unfolding(crate::specs::DeclRules::packed))]
    fn packed(&self, cursor: &mut Cursor<'_>) -> Result<(Option<PackedRange>, usize), ReadFault>
        ensures gives { Gives (height_view (option_map packed_tree)) (rules.within cap self.now.room rules.packed cursor.old) result cursor.new }
        ensures low { IfOk result (λ x. x.1 ≤ self.now.room) }
    {
        match cursor.peek() {
            Some(Lexeme::Mark(Mark::OpenBracket)) => {
                let at = cursor.take()?;
                self.packed_on(cursor, at)
            }
            _ => Ok((None, 0)),
        }
    }

    #[tactic(auto, unfolding(crate::specs::DeclRules::vector_type))]
    fn vector_type(
        &self,
        cursor: &mut Cursor<'_>,
        kind: VectorKind,
    ) -> Result<(IntegerType, usize), ReadFault>
        ensures gives { Gives (height_view integer_tree) (rules.within cap self.now.room (rules.vector_type kind) cursor.old) result cursor.new }
        ensures low { IfOk result (λ x. x.1 ≤ self.now.room) }
    {
        let at = cursor.take()?;
        let signing = self.signing(cursor)?;
        let (range, height) = self.packed(cursor)?;
        Ok((
            IntegerType::Vector {
                at,
                kind,
                signing,
                range,
            },
            height,
        ))
    }

    #[tactic(auto, unfolding(crate::specs::DeclRules::atom_type))]
    fn atom_type(
        &self,
        cursor: &mut Cursor<'_>,
        kind: AtomKind,
    ) -> Result<(IntegerType, usize), ReadFault>
        ensures gives { Gives (height_view integer_tree) (rules.within cap self.now.room (rules.atom_type kind) cursor.old) result cursor.new }
        ensures low { IfOk result (λ x. x.1 ≤ self.now.room) }
    {
        let at = cursor.take()?;
        let signing = self.signing(cursor)?;
        Ok((IntegerType::Atom { at, kind, signing }, 0))
    }

    /// IEEE 1800-2017, A.2.2.1: `integer_type`
    #[tactic(auto, unfolding(crate::specs::DeclRules::integer_type))]
    pub fn integer_type(&self, cursor: &mut Cursor<'_>) -> Result<(IntegerType, usize), ReadFault>
        ensures gives { Gives (height_view integer_tree) (rules.within cap self.now.room rules.integer_type cursor.old) result cursor.new }
        ensures low { IfOk result (λ x. x.1 ≤ self.now.room) }
    {
        match cursor.peek() {
            Some(Lexeme::Word(Word::Bit)) => self.vector_type(cursor, VectorKind::Bit),
            Some(Lexeme::Word(Word::Logic)) => self.vector_type(cursor, VectorKind::Logic),
            Some(Lexeme::Word(Word::Reg)) => self.vector_type(cursor, VectorKind::Reg),
            Some(Lexeme::Word(Word::Byte)) => self.atom_type(cursor, AtomKind::Byte),
            Some(Lexeme::Word(Word::ShortInt)) => self.atom_type(cursor, AtomKind::ShortInt),
            Some(Lexeme::Word(Word::Int)) => self.atom_type(cursor, AtomKind::Int),
            Some(Lexeme::Word(Word::LongInt)) => self.atom_type(cursor, AtomKind::LongInt),
            Some(Lexeme::Word(Word::Integer)) => self.atom_type(cursor, AtomKind::Integer),
            _ => Err(cursor.refuse()),
        }
    }

    /// IEEE 1800-2017, A.2.2.1: `data_type`
    #[tactic(auto, unfolding(crate::specs::DeclRules::data_type, crate::specs::DeclRules::named_type, crate::specs::DeclRules::written_type))]
    pub fn data_type(&self, cursor: &mut Cursor<'_>) -> Result<(DataType, usize), ReadFault>
        ensures gives { Gives (height_view type_tree) (rules.within cap self.now.room rules.data_type cursor.old) result cursor.new }
        ensures low { IfOk result (λ x. x.1 ≤ self.now.room) }
    {
        match cursor.peek() {
            Some(Lexeme::Name(_)) => Ok((DataType::Named(cursor.name()?), 0)),
            _ => {
                let (found, height) = self.integer_type(cursor)?;
                Ok((DataType::Integer(found), height))
            }
        }
    }
}
