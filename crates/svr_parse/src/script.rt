// Scripts (IEEE 1800-2017, A.1.2).

ghost use Rattle.std.specs.Prelude.{◌≡◌, ◌+◌, ◌^◌, ◌<◌, ◌≤◌};
ghost use Rattle.svr_token.specs.declared.Word.TheVariants as w;
ghost use Rattle.svr_reader.specs.declared.fixed.Fixed.TheVariants as f;
ghost use Rattle.svr_tree.specs.DeclTree.{var_tree};
ghost use Rattle.svr_tree.specs.ScriptTree.{unit_tree, script_tree};
ghost use Rattle.svr_tree.specs.ScriptGrammar.{last_word as last_word_of};
ghost use Rattle.svr_reader.specs.Program.{call};
ghost use Rattle.svr_reader.specs.Lists as lists;
ghost use Rattle.svr_reader.specs.Answers.{Answers, Gives};
ghost use Rattle.svr_reader.specs.Calls.{cap, height_view, heights_view};
ghost use Rattle.svr_reader.specs.Fronts.{whole as whole_of};
ghost use Rattle.svr_parse.specs.ScriptRules as rules;

use crate::reader::Reader;
use sqlite_items::Items;
use svr_decl::var;
use svr_reader::{Cursor, Fixed, ReadFault, until};
use svr_token::{Lexeme, Mark, Word};
use svr_tree::{Script, UnitDecl, UnitKind, VarDecl};

// The word that ends a module or program.
fn last_word(kind: UnitKind) -> Word
    ensures { result ≡ last_word_of kind }
{
    match kind {
        UnitKind::Module => Word::EndModule,
        UnitKind::Program => Word::EndProgram,
    }
}

impl Reader {
    // `module` or `program`
    #[tactic(auto, unfolding(crate::specs::ScriptRules::kind))]
    fn kind(&self, cursor: &mut Cursor<'_>) -> Result<UnitKind, ReadFault>
        ensures { Answers (λ k. k) (rules.within cap self.now.room rules.kind cursor.old) result cursor.new }
    {
        match cursor.peek() {
            Some(Lexeme::Word(Word::Module)) => {
                cursor.take()?;
                Ok(UnitKind::Module)
            }
            Some(Lexeme::Word(Word::Program)) => {
                cursor.take()?;
                Ok(UnitKind::Program)
            }
            _ => Err(cursor.refuse()),
        }
    }

    // The variables before the initial block, and `initial`.
    fn outer(&self, cursor: &mut Cursor<'_>) -> Result<(Items<VarDecl>, usize), ReadFault>
        requires path { 2 ≤ self.now.room }
        requires room { self.now.room + 1 < 2 ^ 64 }
        ensures { Gives (heights_view var_tree) (rules.within cap self.now.room (lists.until (f.Word w.Initial) (call rules.a_var)) cursor.old) result cursor.new }
    {
        until(self.alloc, cursor, Fixed::Word(Word::Initial), |cursor| {
            var(self.alloc, cursor, self.room)
        })
    }

    // A module or program, and the greatest height in it.
    #[tactic(auto, unfolding(crate::specs::ScriptRules::unit))]
    fn unit(&self, cursor: &mut Cursor<'_>) -> Result<(UnitDecl, usize), ReadFault>
        requires path { 2 ≤ self.now.room }
        requires room { self.now.room + 1 < 2 ^ 64 }
        ensures { Gives (height_view unit_tree) (rules.within cap self.now.room rules.unit cursor.old) result cursor.new }
    {
        let kind = self.kind(cursor)?;
        let name = cursor.name()?;
        let parens = self.parens(cursor)?;
        cursor.expect(Fixed::Mark(Mark::Semicolon))?;
        let (outer, outer_height) = self.outer(cursor)?;
        cursor.expect(Fixed::Word(Word::Begin))?;
        let declared = self.inner(cursor)?;
        let (stmts, height) = self.stmts(cursor, declared.stmts, declared.stmts_height)?;
        cursor.expect(Fixed::Word(last_word(kind)))?;
        let label = self.name_behind(cursor, Fixed::Mark(Mark::Colon))?;
        let found = UnitDecl {
            kind,
            name,
            parens,
            outer,
            inner: declared.vars,
            stmts,
            label,
        };
        Ok((found, outer_height.max(declared.vars_height).max(height)))
    }

    /// A script, and its height.
    ///
    /// Errors: `Unexpected` at a token that goes on with no script, `TooDeep` at one that goes on with higher ones only.
    #[tactic(auto, unfolding(crate::specs::ScriptRules::script, crate::specs::ScriptRules::script_in))]
    pub fn script(&self, cursor: &mut Cursor<'_>) -> Result<(Script, usize), ReadFault>
        requires path { 2 ≤ self.now.room }
        requires room { self.now.room + 1 < 2 ^ 64 }
        ensures { Gives (height_view script_tree) (rules.script cap self.now.room cursor.old) result cursor.new }
    {
        let (tops, height) = self.tops(cursor)?;
        let (unit, unit_height) = self.unit(cursor)?;
        let found = Script {
            types: tops.types,
            classes: tops.classes,
            order: tops.order,
            unit,
        };
        Ok((found, height.max(unit_height)))
    }

    /// A script, and no token after it. Errors as those of [`Reader::script`].
    #[tactic(auto, unfolding(svr_reader::specs::Fronts::whole))]
    pub fn whole(&self, cursor: &mut Cursor<'_>) -> Result<Script, ReadFault>
        requires path { 2 ≤ self.now.room }
        requires room { self.now.room + 1 < 2 ^ 64 }
        ensures { Gives script_tree (whole_of (rules.script cap self.now.room) cursor.old) result cursor.new }
    {
        let (script, _) = self.script(cursor)?;
        if cursor.left() == 0 {
            Ok(script)
        } else {
            Err(cursor.refuse())
        }
    }
}
