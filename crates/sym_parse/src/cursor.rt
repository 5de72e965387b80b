//! Steps of one token, which every line of the grammar is read by.
ghost use Rattle.std.specs.Prelude.{◌≡◌, ◌<◌, ◌-◌, ◌≤ℤ◌, pos, true, length, option_copied, OnOk, OnSome, IfOk, IfSome};
ghost use Rattle.std.specs.Bool.{OnTrue};
ghost use Rattle.sym_base.specs.Names.{is_name};
ghost use Rattle.sym_parse.specs.Steps.{Parses, name_of, number_of, sees_name, sees_number, sees_sign, sees_text, sees_word, sign_of, text_of, word_of};
ghost use Rattle.sym_parse.specs.Steps as spec;
ghost use Rattle.sym_parse.specs.Views.{input};

use crate::error::LimitKind;
use crate::state::Cursor;
use crate::stop::Stop;
use std::alloc::Global;
use std::str;
use sym_base::{Name, OPERANDS_MAX, STATEMENTS_MAX, Text};
use sym_lex::{Keyword, Symbol, TokenKind};

/// The text of a name's bytes.
fn name_text(bytes: &[u8]) -> &str
    requires { is_name bytes.now ≡ true }
    ensures { result.now ≡ bytes.now }
{
    match str::from_utf8(bytes) {
        Ok(text) => text,
        Err(_) => unreachable!(),
    }
}

impl Cursor<'_> {
    /// The next token's keyword, if it is one.
    #[tactic(auto, unfolding(crate::specs::Steps::next))]
    pub fn keyword(&self) -> Option<Keyword>
        ensures is { result ≡ word_of (spec.next (input self.now)) }
        ensures some { OnSome result (0 < length self.now.rest.now) }
    {
        match self.rest {
            [] => None,
            [first, ..] => match &first.kind {
                TokenKind::Word(keyword) => Some(*keyword),
                TokenKind::Name | TokenKind::Number(_) | TokenKind::Str(_) | TokenKind::Sign(_) =>
                    None,
            },
        }
    }

    /// The next token's symbol, if it is one.
    #[tactic(auto, unfolding(crate::specs::Steps::next))]
    pub fn symbol(&self) -> Option<Symbol>
        ensures is { result ≡ sign_of (spec.next (input self.now)) }
        ensures some { OnSome result (0 < length self.now.rest.now) }
    {
        match self.rest {
            [] => None,
            [first, ..] => match &first.kind {
                TokenKind::Sign(symbol) => Some(*symbol),
                TokenKind::Name | TokenKind::Number(_) | TokenKind::Str(_) | TokenKind::Word(_) =>
                    None,
            },
        }
    }

    /// Whether this keyword stands next.
    #[tactic(auto, unfolding(crate::specs::Steps::sees_word))]
    pub fn is_word(&self, keyword: Keyword) -> bool
        ensures is { result ≡ sees_word keyword (input self.now) }
        ensures some { OnTrue result (0 < length self.now.rest.now) }
    {
        match self.keyword() {
            Some(found) => found == keyword,
            None => false,
        }
    }

    /// Whether this symbol stands next.
    #[tactic(auto, unfolding(crate::specs::Steps::sees_sign))]
    pub fn is_sign(&self, symbol: Symbol) -> bool
        ensures is { result ≡ sees_sign symbol (input self.now) }
        ensures some { OnTrue result (0 < length self.now.rest.now) }
    {
        match self.symbol() {
            Some(found) => found == symbol,
            None => false,
        }
    }

    /// Whether a name stands next.
    #[tactic(auto, unfolding(crate::specs::Steps::next, crate::specs::Steps::sees_name))]
    pub fn is_name(&self) -> bool
        ensures is { result ≡ sees_name (input self.now) }
        ensures some { OnTrue result (0 < length self.now.rest.now) }
    {
        match self.rest {
            [] => false,
            [first, ..] => match &first.kind {
                TokenKind::Name => true,
                TokenKind::Number(_)
                | TokenKind::Str(_)
                | TokenKind::Word(_)
                | TokenKind::Sign(_) => false,
            },
        }
    }

    /// Whether a number stands next.
    #[tactic(auto, unfolding(crate::specs::Steps::next, crate::specs::Steps::sees_number))]
    pub fn is_number(&self) -> bool
        ensures is { result ≡ sees_number (input self.now) }
        ensures some { OnTrue result (0 < length self.now.rest.now) }
    {
        match self.rest {
            [] => false,
            [first, ..] => match &first.kind {
                TokenKind::Number(_) => true,
                TokenKind::Name | TokenKind::Str(_) | TokenKind::Word(_) | TokenKind::Sign(_) => {
                    false
                }
            },
        }
    }

    /// Whether a text stands next.
    #[tactic(auto, unfolding(crate::specs::Steps::next, crate::specs::Steps::sees_text))]
    pub fn is_text(&self) -> bool
        ensures is { result ≡ sees_text (input self.now) }
        ensures some { OnTrue result (0 < length self.now.rest.now) }
    {
        match self.rest {
            [] => false,
            [first, ..] => match &first.kind {
                TokenKind::Str(_) => true,
                TokenKind::Name | TokenKind::Number(_) | TokenKind::Word(_) | TokenKind::Sign(_) =>
                    false,
            },
        }
    }

    /// Whether no token is left.
    #[tactic(auto, unfolding(crate::specs::Steps::next, crate::specs::Steps::is_done))]
    pub fn is_done(&self) -> bool
        ensures { result ≡ spec.is_done (input self.now) }
    {
        self.rest.is_empty()
    }

    /// The place of the next token, or 0 at the end.
    #[tactic(auto, unfolding(crate::specs::Steps::place))]
    pub fn place(&self) -> u32
        ensures { result ≡ spec.place (input self.now) }
    {
        match self.rest {
            [] => 0,
            [first, ..] => first.at,
        }
    }

    /// Past the next token, if there is one.
    #[tactic(auto, unfolding(crate::specs::Steps::passed))]
    pub fn bump(&mut self)
        ensures next { input self.new ≡ spec.passed (input self.old) }
        ensures left { length self.new.rest.now ≡ length self.old.rest.now - 1 }
    {
        match self.rest {
            [] => {}
            [_, rest @ ..] => self.rest = rest,
        }
    }

    /// That nothing can go on with the next token.
    pub fn refusal(&self) -> Stop
        ensures { result ≡ Stop.Expected (length (input self.now).rest) }
    {
        Stop::Expected(self.rest.len())
    }

    /// That the next token begins a thing which passes its number.
    pub fn full(&self, which: LimitKind) -> Stop
        ensures { result ≡ Stop.Limit (length (input self.now).rest) which }
    {
        Stop::Limit(self.rest.len(), which)
    }

    /// This keyword, which is taken.
    #[tactic(auto, unfolding(crate::specs::Steps::word))]
    pub fn word(&mut self, keyword: Keyword) -> Result<(), Stop>
        ensures reads { Parses (λ _. tt) (spec.word keyword (input self.old))
            result (input self.new) }
        ensures shorter { OnOk result (length self.new.rest.now < length self.old.rest.now) }
    {
        if !self.is_word(keyword) {
            return Err(self.refusal());
        }
        self.bump();
        Ok(())
    }

    /// This symbol, which is taken.
    #[tactic(auto, unfolding(crate::specs::Steps::sign))]
    pub fn sign(&mut self, symbol: Symbol) -> Result<(), Stop>
        ensures reads { Parses (λ _. tt) (spec.sign symbol (input self.old))
            result (input self.new) }
        ensures shorter { OnOk result (length self.new.rest.now < length self.old.rest.now) }
    {
        if !self.is_sign(symbol) {
            return Err(self.refusal());
        }
        self.bump();
        Ok(())
    }

    /// That no token is left.
    #[tactic(auto, unfolding(crate::specs::Steps::done))]
    pub fn done(&self) -> Result<(), Stop>
        ensures { Parses (λ _. tt) (spec.done (input self.now)) result (input self.now) }
    {
        if !self.is_done() {
            return Err(self.refusal());
        }
        Ok(())
    }

    /// The token that opens a level, of which `room` are free. It is taken.
    #[tactic(auto, using(crate::proofs::Openings::openings))]
    pub fn open(&mut self, room: usize) -> Result<(), Stop>
        ensures reads { Parses (λ _. tt) (spec.opening room (input self.old))
            result (input self.new) }
        ensures left { OnOk result (length self.new.rest.now ≡ length self.old.rest.now - 1) }
        ensures free { OnOk result (0 < room) }
    {
        if room == 0 {
            return Err(self.full(LimitKind::Depth));
        }
        self.bump();
        Ok(())
    }

    /// Counts the statement that the next token begins.
    #[tactic(auto, unfolding(crate::specs::Steps::one_statement))]
    pub fn count_statement(&mut self) -> Result<(), Stop>
        ensures reads { Parses (λ _. tt) (spec.one_statement STATEMENTS_MAX (input self.old))
            result (input self.new) }
        ensures rest { self.new.rest.now ≡ self.old.rest.now }
    {
        if self.statements >= STATEMENTS_MAX {
            return Err(self.full(LimitKind::Statements));
        }
        self.statements += 1;
        Ok(())
    }

    /// Counts the operand that the next token is.
    #[tactic(auto, unfolding(crate::specs::Steps::one_operand))]
    pub fn count_operand(&mut self) -> Result<(), Stop>
        ensures reads { Parses (λ _. tt) (spec.one_operand OPERANDS_MAX (input self.old))
            result (input self.new) }
        ensures rest { self.new.rest.now ≡ self.old.rest.now }
    {
        if self.operands >= OPERANDS_MAX {
            return Err(self.full(LimitKind::Operands));
        }
        self.operands += 1;
        Ok(())
    }

    /// That one more of a kind may stand next, after `found` of them. `begins` says whether the
    /// next token begins one.
    #[tactic(auto, unfolding(crate::specs::Steps::one_more))]
    pub fn one_more(
        &self,
        found: usize,
        most: usize,
        which: LimitKind,
        begins: bool,
    ) -> Result<(), Stop>
        ensures { Parses (λ _. tt) (spec.one_more found most which begins (input self.now))
            result (input self.now) }
    {
        if found < most {
            return Ok(());
        }
        if begins {
            return Err(self.full(which));
        }
        Err(self.refusal())
    }

    /// That no operand was counted.
    pub fn reset_operands(&mut self)
        ensures input { input self.new ≡ record (input self.old) { operands = 0 } }
        ensures rest { self.new.rest.now ≡ self.old.rest.now }
    {
        self.operands = 0;
    }

    /// That no statement was counted.
    pub fn reset_statements(&mut self)
        ensures input { input self.new ≡ record (input self.old) { statements = 0 } }
        ensures rest { self.new.rest.now ≡ self.old.rest.now }
    {
        self.statements = 0;
    }

    /// A number without a sign, which is taken.
    #[tactic(auto, unfolding(crate::specs::Steps::number))]
    pub fn number(&mut self) -> Result<i64, Stop>
        ensures reads { Parses (λ n. n) (spec.number (input self.old)) result (input self.new) }
        ensures shorter { OnOk result (length self.new.rest.now < length self.old.rest.now) }
        ensures unsigned { IfOk result (λ n. pos 0 ≤ℤ n) }
    {
        match self.numeral() {
            Some(number) => {
                self.bump();
                Ok(number)
            }
            None => Err(self.refusal()),
        }
    }

    /// A name, which is taken.
    #[tactic(auto, unfolding(crate::specs::Steps::name))]
    pub fn name(&mut self, alloc: Global) -> Result<Name, Stop>
        ensures reads { Parses (λ n. n) (spec.name (input self.old)) result (input self.new) }
        ensures shorter { OnOk result (length self.new.rest.now < length self.old.rest.now) }
    {
        match self.spelling() {
            Some(spelling) => {
                let text = Text::from_str(alloc, spelling)?;
                let at = self.place();
                self.bump();
                Ok(Name { text, at })
            }
            None => Err(self.refusal()),
        }
    }

    /// A text, which is taken.
    #[tactic(auto, unfolding(crate::specs::Steps::text))]
    pub fn text(&mut self, alloc: Global) -> Result<Text, Stop>
        ensures reads { Parses (λ t. t) (spec.text (input self.old)) result (input self.new) }
        ensures shorter { OnOk result (length self.new.rest.now < length self.old.rest.now) }
    {
        match self.quoted() {
            Some(quoted) => {
                let text = quoted.copy(alloc)?;
                self.bump();
                Ok(text)
            }
            None => Err(self.refusal()),
        }
    }
}

impl<'a> Cursor<'a> {
    /// The next token's text, if it is a name.
    #[tactic(auto, unfolding(crate::specs::Steps::next))]
    fn spelling(&self) -> Option<&'a str>
        ensures is { option_copied result ≡ name_of (spec.next (input self.now)) }
        ensures some { OnSome result (0 < length self.now.rest.now) }
    {
        match self.rest {
            [] => None,
            [first, ..] => match &first.kind {
                TokenKind::Name => Some(name_text(
                    &self.source[first.at as usize..first.end as usize],
                )),
                TokenKind::Number(_)
                | TokenKind::Str(_)
                | TokenKind::Word(_)
                | TokenKind::Sign(_) => None,
            },
        }
    }

    /// The next token's number, if it is one.
    #[tactic(auto, unfolding(crate::specs::Steps::next, sym_base::specs::Lawful::is_unsigned))]
    fn numeral(&self) -> Option<i64>
        ensures is { result ≡ number_of (spec.next (input self.now)) }
        ensures some { OnSome result (0 < length self.now.rest.now) }
        ensures unsigned { IfSome result (λ n. pos 0 ≤ℤ n) }
    {
        match self.rest {
            [] => None,
            [first, ..] => match &first.kind {
                TokenKind::Number(number) => Some(*number),
                TokenKind::Name | TokenKind::Str(_) | TokenKind::Word(_) | TokenKind::Sign(_) => {
                    None
                }
            },
        }
    }

    /// The text that the next token is, if it is one.
    #[tactic(auto, unfolding(crate::specs::Steps::next))]
    fn quoted(&self) -> Option<&'a Text>
        ensures is { option_copied result ≡ text_of (spec.next (input self.now)) }
        ensures some { OnSome result (0 < length self.now.rest.now) }
    {
        match self.rest {
            [] => None,
            [first, ..] => match &first.kind {
                TokenKind::Str(text) => Some(text),
                TokenKind::Name | TokenKind::Number(_) | TokenKind::Word(_) | TokenKind::Sign(_) =>
                    None,
            },
        }
    }
}
