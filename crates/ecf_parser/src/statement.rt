//! Statements and blocks: a function for each line of the grammar. Each call back to a block stands behind an opening brace,
//! so brackets bound how deep the calls go.

ghost use Rattle.std.specs.Prelude.{◌≡◌, ◌<◌, ◌≤◌, length, OnOk};
ghost use Rattle.ecf_grammar.specs.declared.tokens.Sign.TheVariants as signs;
ghost use Rattle.ecf_parser.specs.Descent as spec;
ghost use Rattle.ecf_parser.specs.Parsers as reading;
ghost use Rattle.ecf_parser.specs.Parses.{Parses};

use crate::cursor::{Cursor, ParseFault, with};
use ecf_grammar::{Kind, Sign, Word};
use ecf_lang::name::Name;
use ecf_lang::tree::{Block, Expr, Stmt, Ty};
use sqlite_items::Items;

impl<'a> Cursor<'a> {
    /// `=`, an expression and `;`.
    #[tactic(auto, unfolding(crate::specs::Descent::value))]
    fn value(&mut self) -> Result<Expr, ParseFault>
        ensures read { Parses (spec.value self.old) result self.new }
        ensures fewer { OnOk result (length self.new < length self.old) }
    {
        self.sign(Sign::Assign)?;
        let value = self.expr()?;
        self.closed(value, Sign::Semicolon)
    }

    /// An expression and `;`.
    #[tactic(auto, unfolding(crate::specs::Descent::expr_semicolon))]
    fn expr_semicolon(&mut self) -> Result<Expr, ParseFault>
        ensures read { Parses (spec.expr_semicolon self.old) result self.new }
        ensures fewer { OnOk result (length self.new < length self.old) }
    {
        let value = self.expr()?;
        self.closed(value, Sign::Semicolon)
    }

    /// The value or the `try` of a `let`, behind its `=`, and the `;`; `at` is the token of the name.
    #[tactic(auto, unfolding(crate::specs::Descent::let_value))]
    fn let_value(&mut self, at: u32, name: Name, ty: Ty) -> Result<Stmt, ParseFault>
        ensures read { Parses (spec.let_value (at, name) ty self.old) result self.new }
        ensures fewer { OnOk result (length self.new < length self.old) }
    {
        if self.sees_word(Word::Try) {
            let place = self.word(Word::Try)?;
            let call = self.external(place)?;
            return self.closed(Stmt::Try { at, name, ty, call }, Sign::Semicolon);
        }
        let value = self.expr()?;
        let stmt = Stmt::Let {
            at,
            name,
            ty,
            value,
        };
        self.closed(stmt, Sign::Semicolon)
    }

    /// A `let`.
    #[tactic(auto, unfolding(crate::specs::Descent::let_))]
    fn let_stmt(&mut self) -> Result<Stmt, ParseFault>
        ensures read { Parses (spec.let_ self.old) result self.new }
        ensures fewer { OnOk result (length self.new < length self.old) }
    {
        self.word(Word::Let)?;
        let (at, name) = self.name()?;
        self.sign(Sign::Colon)?;
        let ty = self.type_name()?;
        self.sign(Sign::Assign)?;
        self.let_value(at, name, ty)
    }

    /// An assignment to a name, or to a name with an index.
    #[tactic(auto, using(crate::proofs::WithLaws::parsed, crate::proofs::WithLaws::refused, crate::proofs::WithLaws::still_less), unfolding(crate::specs::Descent::set))]
    fn assignment(&mut self) -> Result<Stmt, ParseFault>
        ensures read { Parses (spec.set self.old) result self.new }
        ensures fewer { OnOk result (length self.new < length self.old) }
    {
        let (at, name) = self.name()?;
        if !self.eat_sign(Sign::OpenBracket) {
            let value = self.value()?;
            return Ok(Stmt::Set { at, name, value });
        }
        let key = self.expr()?;
        let key = self.closed(key, Sign::CloseBracket)?;
        let (key, value) = with(key, self.value())?;
        Ok(Stmt::SetAt {
            at,
            name,
            key,
            value,
        })
    }

    /// A condition and its block.
    #[cycle(blocks)]
    #[tactic(auto, using(crate::proofs::WithLaws::with_read, crate::proofs::WithLaws::with_fewer), unfolding(crate::specs::Descent::arm))]
    fn arm(&mut self) -> Result<(Expr, Block), ParseFault>
        ensures read { Parses (spec.arm spec.block self.old) result self.new }
        ensures fewer { OnOk result (length self.new < length self.old) }
    {
        let cond = self.expr()?;
        with(cond, self.block())
    }

    /// The arms behind `else if` and the block behind a last `else`, so far as there are any.
    #[cycle(blocks)]
    #[tactic(auto, using(crate::proofs::StatementLoopLaws::arms_nil, crate::proofs::StatementLoopLaws::arms_more, crate::proofs::StatementLoopLaws::arms_stuck, crate::proofs::StatementLoopLaws::last_more, crate::proofs::StatementLoopLaws::last_stuck, crate::proofs::StatementLoopLaws::arms_over))]
    fn elses(&mut self) -> Result<(Items<(Expr, Block)>, Option<Block>), ParseFault>
        ensures read { Parses (spec.elses spec.block self.old) result self.new }
        ensures no_more { OnOk result (length self.new ≤ length self.old) }
    {
        let mut arms = Items::new(self.alloc);
        'arms: while self.eat_word(Word::Else) {
            if !self.eat_word(Word::If) {
                let last = self.block()?;
                return Ok((arms, Some(last)));
            }
            arms.push(self.arm()?)?;
        }
        Ok((arms, None))
    }

    /// An `if` with its further arms.
    #[cycle(blocks)]
    #[tactic(auto, unfolding(crate::specs::Descent::if_))]
    fn if_stmt(&mut self) -> Result<Stmt, ParseFault>
        ensures read { Parses (spec.if_ spec.block self.old) result self.new }
        ensures fewer { OnOk result (length self.new < length self.old) }
    {
        self.word(Word::If)?;
        let mut arms = Items::new(self.alloc);
        arms.push(self.arm()?)?;
        let (rest, last) = self.elses()?;
        arms.append(rest)?;
        Ok(Stmt::If { arms, last })
    }

    /// A `while`.
    #[cycle(blocks)]
    #[tactic(auto, using(crate::proofs::StatementLoopLaws::while_done, crate::proofs::StatementLoopLaws::while_first, crate::proofs::StatementLoopLaws::while_rest))]
    fn while_stmt(&mut self) -> Result<Stmt, ParseFault>
        ensures read { Parses (spec.while spec.block self.old) result self.new }
        ensures fewer { OnOk result (length self.new < length self.old) }
    {
        self.word(Word::While)?;
        let (cond, body) = self.arm()?;
        Ok(Stmt::While { cond, body })
    }

    /// A statement.
    #[cycle(blocks)]
    #[tactic(auto, unfolding(crate::specs::Descent::stmt))]
    fn stmt(&mut self) -> Result<Stmt, ParseFault>
        ensures read { Parses (spec.stmt spec.block self.old) result self.new }
        ensures fewer { OnOk result (length self.new < length self.old) }
    {
        match self.peek() {
            Some(Kind::Word(Word::Let)) => self.let_stmt(),
            Some(Kind::Name) => self.assignment(),
            Some(Kind::Word(Word::If)) => self.if_stmt(),
            Some(Kind::Word(Word::While)) => self.while_stmt(),
            Some(Kind::Word(Word::Return)) => {
                self.word(Word::Return)?;
                let value = self.expr_semicolon()?;
                Ok(Stmt::Return { value })
            }
            Some(Kind::Word(Word::Revert)) => {
                self.word(Word::Revert)?;
                let value = self.expr_semicolon()?;
                Ok(Stmt::Revert { value })
            }
            _ => {
                let call = self.invoke()?;
                self.closed(Stmt::Do { call }, Sign::Semicolon)
            }
        }
    }

    /// Statements up to a closing brace.
    #[cycle(blocks)]
    #[tactic(auto, using(crate::proofs::LoopLaws::front_nil, crate::proofs::StatementLoopLaws::stmts_more, crate::proofs::StatementLoopLaws::stmts_stuck, crate::proofs::StatementLoopLaws::stmts_over))]
    fn stmts(&mut self) -> Result<Items<Stmt>, ParseFault>
        ensures read { Parses (reading.until (reading.is_sign signs.CloseBrace) (spec.stmt spec.block) self.old) result self.new }
        ensures no_more { OnOk result (length self.new ≤ length self.old) }
    {
        let mut stmts = Items::new(self.alloc);
        'statements: while !self.sees(Sign::CloseBrace) {
            stmts.push(self.stmt()?)?;
        }
        Ok(stmts)
    }

    /// Statements in braces.
    #[cycle(blocks)]
    #[tactic(auto, using(crate::proofs::StatementLoopLaws::block_by), unfolding(crate::specs::Descent::one_block))]
    pub fn block(&mut self) -> Result<Block, ParseFault>
        ensures read { Parses (spec.block self.old) result self.new }
        ensures fewer { OnOk result (length self.new < length self.old) }
    {
        self.sign(Sign::OpenBrace)?;
        let stmts = self.stmts()?;
        self.sign(Sign::CloseBrace)?;
        Ok(Block { stmts })
    }
}
