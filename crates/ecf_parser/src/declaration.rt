//! Members, objects and whole files: a function for each line of the grammar.

ghost use Rattle.std.specs.Prelude.{◌≡◌, ◌<◌, ◌≤◌, ◌++◌, [], ◌∷◌, length, OnOk};
ghost use Rattle.ecf_grammar.specs.declared.tokens.Sign.TheVariants as signs;
ghost use Rattle.ecf_parser.specs.Descent as spec;
ghost use Rattle.ecf_parser.specs.Parsers as reading;
ghost use Rattle.ecf_parser.specs.Parses.{Parses};

use crate::cursor::{Cursor, ParseFault};
use ecf_grammar::{Kind, Sign, Word};
use ecf_lang::tree::{Const, Member, ObjectDecl, Param, Tree, Ty};
use sqlite_items::Items;

impl<'a> Cursor<'a> {
    /// `num`, `flag` or `addr`.
    #[tactic(auto, unfolding(crate::specs::Descent::type_))]
    pub fn type_name(&mut self) -> Result<Ty, ParseFault>
        ensures read { Parses (spec.type_ self.old) result self.new }
        ensures fewer { OnOk result (length self.new < length self.old) }
    {
        match self.peek() {
            Some(Kind::Word(Word::Num)) => {
                self.word(Word::Num)?;
                Ok(Ty::Num)
            }
            Some(Kind::Word(Word::Flag)) => {
                self.word(Word::Flag)?;
                Ok(Ty::Flag)
            }
            Some(Kind::Word(Word::Addr)) => {
                self.word(Word::Addr)?;
                Ok(Ty::Addr)
            }
            _ => Err(ParseFault::OutOfPlace),
        }
    }

    /// A number, `true`, `false` or the name of an object.
    #[tactic(auto, unfolding(crate::specs::Descent::constant))]
    fn constant(&mut self) -> Result<Const, ParseFault>
        ensures read { Parses (spec.constant self.old) result self.new }
        ensures fewer { OnOk result (length self.new < length self.old) }
    {
        match self.peek() {
            Some(Kind::Number(_)) => {
                let (at, value) = self.number()?;
                Ok(Const::Number { at, value })
            }
            Some(Kind::Word(Word::True)) => {
                let at = self.word(Word::True)?;
                Ok(Const::Flag { at, value: true })
            }
            Some(Kind::Word(Word::False)) => {
                let at = self.word(Word::False)?;
                Ok(Const::Flag { at, value: false })
            }
            _ => {
                let (at, name) = self.name()?;
                Ok(Const::Name { at, name })
            }
        }
    }

    /// A key and its value with `:` between.
    #[tactic(auto, unfolding(crate::specs::Descent::entry))]
    fn entry(&mut self) -> Result<(Const, Const), ParseFault>
        ensures read { Parses (spec.entry self.old) result self.new }
        ensures fewer { OnOk result (length self.new < length self.old) }
    {
        let key = self.constant()?;
        self.sign(Sign::Colon)?;
        let value = self.constant()?;
        Ok((key, value))
    }

    /// A name and its type with `:` between.
    #[tactic(auto, unfolding(crate::specs::Descent::param))]
    fn param(&mut self) -> Result<Param, ParseFault>
        ensures read { Parses (spec.param self.old) result self.new }
        ensures fewer { OnOk result (length self.new < length self.old) }
    {
        let (at, name) = self.name()?;
        self.sign(Sign::Colon)?;
        let ty = self.type_name()?;
        Ok(Param { at, name, ty })
    }

    /// The initial value of a field behind `=`, or none.
    #[tactic(auto, using(crate::proofs::DeclarationLoopLaws::eaten_len), unfolding(crate::specs::Descent::first))]
    fn first(&mut self) -> Result<Option<Const>, ParseFault>
        ensures read { Parses (spec.first self.old) result self.new }
        ensures no_more { OnOk result (length self.new ≤ length self.old) }
    {
        if !self.eat_sign(Sign::Assign) {
            return Ok(None);
        }
        Ok(Some(self.constant()?))
    }

    /// The initial pairs of a map behind `=` in braces, or none.
    #[tactic(auto, using(crate::proofs::DeclarationLoopLaws::eaten_len), unfolding(crate::specs::Descent::entries))]
    fn entries(&mut self) -> Result<Items<(Const, Const)>, ParseFault>
        ensures read { Parses (spec.entries self.old) result self.new }
        ensures no_more { OnOk result (length self.new ≤ length self.old) }
    {
        if !self.eat_sign(Sign::Assign) {
            return Ok(Items::new(self.alloc));
        }
        self.sign(Sign::OpenBrace)?;
        let pairs = self.pairs()?;
        self.sign(Sign::CloseBrace)?;
        Ok(pairs)
    }

    /// Pairs with commas between up to a closing brace, or none.
    #[tactic(auto, using(crate::proofs::DeclarationLoopLaws::pairs_none, crate::proofs::DeclarationLoopLaws::pairs_first, crate::proofs::DeclarationLoopLaws::pairs_some, crate::proofs::DeclarationLoopLaws::pairs_more, crate::proofs::DeclarationLoopLaws::pairs_stuck, crate::proofs::DeclarationLoopLaws::pairs_over, crate::proofs::DeclarationLoopLaws::eaten_len))]
    fn pairs(&mut self) -> Result<Items<(Const, Const)>, ParseFault>
        ensures read { Parses (reading.list_of signs.Comma signs.CloseBrace spec.entry self.old) result self.new }
        ensures no_more { OnOk result (length self.new ≤ length self.old) }
    {
        let mut pairs = Items::new(self.alloc);
        if self.sees(Sign::CloseBrace) {
            return Ok(pairs);
        }
        pairs.push(self.entry()?)?;
        'further: while self.eat_sign(Sign::Comma) {
            pairs.push(self.entry()?)?;
        }
        Ok(pairs)
    }

    /// A type, a name and maybe an initial value.
    #[tactic(auto, unfolding(crate::specs::Descent::field))]
    fn field(&mut self) -> Result<Member, ParseFault>
        ensures read { Parses (spec.field self.old) result self.new }
        ensures fewer { OnOk result (length self.new < length self.old) }
    {
        let ty = self.type_name()?;
        let (at, name) = self.name()?;
        let first = self.first()?;
        self.sign(Sign::Semicolon)?;
        Ok(Member::Field {
            at,
            name,
            ty,
            first,
        })
    }

    /// A name, the types of keys and values, and maybe initial pairs.
    #[tactic(auto, unfolding(crate::specs::Descent::map))]
    fn map(&mut self) -> Result<Member, ParseFault>
        ensures read { Parses (spec.map self.old) result self.new }
        ensures fewer { OnOk result (length self.new < length self.old) }
    {
        self.word(Word::Map)?;
        let (at, name) = self.name()?;
        self.sign(Sign::Colon)?;
        let key = self.type_name()?;
        self.sign(Sign::Arrow)?;
        let value = self.type_name()?;
        let first = self.entries()?;
        self.sign(Sign::Semicolon)?;
        Ok(Member::Map {
            at,
            name,
            key,
            value,
            first,
        })
    }

    /// A name, parameters, the type of the answer and a body.
    #[tactic(auto, unfolding(crate::specs::Descent::method))]
    fn method(&mut self) -> Result<Member, ParseFault>
        ensures read { Parses (spec.method self.old) result self.new }
        ensures fewer { OnOk result (length self.new < length self.old) }
    {
        self.word(Word::Method)?;
        let (at, name) = self.name()?;
        self.sign(Sign::OpenParen)?;
        let params = self.params()?;
        self.sign(Sign::CloseParen)?;
        self.sign(Sign::Colon)?;
        let answer = self.type_name()?;
        let body = self.block()?;
        Ok(Member::Method {
            at,
            name,
            params,
            answer,
            body,
        })
    }

    /// Parameters with commas between up to a closing parenthesis, or none.
    #[tactic(auto, using(crate::proofs::DeclarationLoopLaws::params_none, crate::proofs::DeclarationLoopLaws::params_first, crate::proofs::DeclarationLoopLaws::params_some, crate::proofs::DeclarationLoopLaws::params_more, crate::proofs::DeclarationLoopLaws::params_stuck, crate::proofs::DeclarationLoopLaws::params_over, crate::proofs::DeclarationLoopLaws::eaten_len))]
    fn params(&mut self) -> Result<Items<Param>, ParseFault>
        ensures read { Parses (reading.list_of signs.Comma signs.CloseParen spec.param self.old) result self.new }
        ensures no_more { OnOk result (length self.new ≤ length self.old) }
    {
        let mut params = Items::new(self.alloc);
        if self.sees(Sign::CloseParen) {
            return Ok(params);
        }
        params.push(self.param()?)?;
        'further: while self.eat_sign(Sign::Comma) {
            params.push(self.param()?)?;
        }
        Ok(params)
    }

    /// A field, a map or a method.
    #[tactic(auto, unfolding(crate::specs::Descent::member))]
    fn member(&mut self) -> Result<Member, ParseFault>
        ensures read { Parses (spec.member self.old) result self.new }
        ensures fewer { OnOk result (length self.new < length self.old) }
    {
        match self.peek() {
            Some(Kind::Word(Word::Map)) => self.map(),
            Some(Kind::Word(Word::Method)) => self.method(),
            _ => self.field(),
        }
    }

    /// A name and members in braces.
    #[tactic(auto, unfolding(crate::specs::Descent::object))]
    fn object(&mut self) -> Result<ObjectDecl, ParseFault>
        ensures read { Parses (spec.object self.old) result self.new }
        ensures fewer { OnOk result (length self.new < length self.old) }
    {
        self.word(Word::Object)?;
        let (at, name) = self.name()?;
        self.sign(Sign::OpenBrace)?;
        let members = self.members()?;
        self.sign(Sign::CloseBrace)?;
        Ok(ObjectDecl { at, name, members })
    }

    /// Members up to a closing brace.
    #[tactic(auto, using(crate::proofs::LoopLaws::front_nil, crate::proofs::DeclarationLoopLaws::members_more, crate::proofs::DeclarationLoopLaws::members_stuck, crate::proofs::DeclarationLoopLaws::members_over))]
    fn members(&mut self) -> Result<Items<Member>, ParseFault>
        ensures read { Parses (reading.until (reading.is_sign signs.CloseBrace) spec.member self.old) result self.new }
        ensures no_more { OnOk result (length self.new ≤ length self.old) }
    {
        let mut members = Items::new(self.alloc);
        'members: while !self.sees(Sign::CloseBrace) {
            members.push(self.member()?)?;
        }
        Ok(members)
    }

    /// At least one object up to the end of the tokens.
    #[tactic(auto, unfolding(crate::specs::Descent::file))]
    pub fn file(&mut self) -> Result<Tree, ParseFault>
        ensures read { Parses (spec.file self.old) result self.new }
        ensures fewer { OnOk result (length self.new < length self.old) }
    {
        let first = self.object()?;
        let mut objects = Items::new(self.alloc);
        objects.push(first)?;
        objects.append(self.objects()?)?;
        Ok(Tree { objects })
    }

    /// Objects up to the end of the tokens.
    #[tactic(auto, using(crate::proofs::LoopLaws::front_nil, crate::proofs::DeclarationLoopLaws::objects_more, crate::proofs::DeclarationLoopLaws::objects_stuck, crate::proofs::DeclarationLoopLaws::objects_over))]
    fn objects(&mut self) -> Result<Items<ObjectDecl>, ParseFault>
        ensures read { Parses (reading.until spec.at_end spec.object self.old) result self.new }
        ensures no_more { OnOk result (length self.new ≤ length self.old) }
    {
        let mut objects = Items::new(self.alloc);
        'objects: while self.peek().is_some() {
            objects.push(self.object()?)?;
        }
        Ok(objects)
    }
}
