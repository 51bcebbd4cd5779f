//! A text that is written word by word.

ghost use Rattle.std.specs.Prelude.{◌≡◌, ◌++◌, ◌∷◌, [], None, Some, if◌then◌else◌, OnOk};
ghost use Rattle.xdg_ast.specs.declared.token.Kind.TheVariants as k;
ghost use Rattle.xdg_ast.specs.Words.{mark, number, quoted, constant};
ghost use Rattle.xdg_ast.specs.Trees.{name_word, names_words, nums_words, constant_in};
ghost use Rattle.xdg_ast.specs.Canon.{gap};
ghost use Rattle.xdg_print.specs.Printed.{put, begun, ended, opening, closing};

use crate::words::{is_tight, mark_text, push_escaped};
use itoa::Buffer;
use std::alloc::Global;
use xdg_ast::{Kind, Name, Num, Params};
use xdg_base::{OutOfMemory, Text, is_name};

/// The text so far, and the kind of the last word of its last line, if it has one.
#[derive(Drop)]
pub struct Printer {
    text: Text,
    last: Option<Kind>,
}

impl Printer {
    /// With no text.
    pub fn new(alloc: Global) -> Printer
        ensures { result ≡ (record { text = []; last = None }) }
    {
        Printer {
            text: Text::new(alloc),
            last: None,
        }
    }

    /// The text.
    pub fn into_text(self) -> Text
        ensures { result ≡ self.text }
    {
        self.text
    }

    /// Begins a line with its indent.
    #[tactic(auto, unfolding(crate::specs::Printed::begun))]
    pub fn begin(&mut self, indent: &str) -> Result<(), OutOfMemory>
        ensures { OnOk result (self.new ≡ begun indent.now self.old) }
    {
        self.text.push_str(indent)?;
        self.last = None;
        Ok(())
    }

    /// Ends a line.
    #[tactic(auto, unfolding(crate::specs::Printed::ended))]
    pub fn end(&mut self) -> Result<(), OutOfMemory>
        ensures { OnOk result (self.new ≡ ended self.old) }
    {
        self.text.push_str("\n")?;
        self.last = None;
        Ok(())
    }

    /// Adds what stands between the last word and the next, of this kind.
    #[tactic(auto, unfolding(xdg_ast::specs::Canon::gap))]
    fn lead(&mut self, kind: Kind) -> Result<(), OutOfMemory>
        ensures { OnOk result (self.new ≡ (record { text = self.old.text ++ gap self.old.last kind; last = Some kind })) }
    {
        if let Some(last) = self.last
            && !is_tight(last, kind)
        {
            self.text.push_str(" ")?;
        }
        self.last = Some(kind);
        Ok(())
    }

    /// Adds a keyword or a sign.
    #[tactic(auto, unfolding(crate::specs::Printed::put_one, xdg_ast::specs::Canon::spelling))]
    pub fn mark(&mut self, kind: Kind) -> Result<(), OutOfMemory>
        ensures { OnOk result (self.new ≡ put (mark kind ∷ []) self.old) }
    {
        self.lead(kind)?;
        self.text.push_str(mark_text(kind))
    }

    /// Adds a quoted text.
    #[tactic(auto, unfolding(crate::specs::Printed::put_one, xdg_ast::specs::Canon::spelling))]
    pub fn quoted(&mut self, text: &str) -> Result<(), OutOfMemory>
        ensures { OnOk result (self.new ≡ put (quoted text.now ∷ []) self.old) }
    {
        self.lead(Kind::Quoted)?;
        self.text.push_str("\"")?;
        push_escaped(&mut self.text, text)?;
        self.text.push_str("\"")
    }

    /// Adds a constant, as a name where it can be one.
    #[tactic(auto, unfolding(crate::specs::Printed::put_one, xdg_ast::specs::Canon::spelling))]
    pub fn constant(&mut self, text: &str) -> Result<(), OutOfMemory>
        ensures { OnOk result (self.new ≡ put (constant text.now ∷ []) self.old) }
    {
        if is_name(text) {
            self.lead(Kind::Name)?;
            return self.text.push_str(text);
        }
        self.quoted(text)
    }

    /// Adds a constant in the body of a class: with the characters of a parameter it is quoted.
    pub(crate) fn constant_in(&mut self, params: &Params, text: &str) -> Result<(), OutOfMemory>
        ensures { OnOk result (self.new ≡ put (constant_in params.now text.now ∷ []) self.old) }
    {
        if params.contains(text) {
            return self.quoted(text);
        }
        self.constant(text)
    }

    /// Adds a name.
    pub(crate) fn name(&mut self, name: &Name) -> Result<(), OutOfMemory>
        ensures { OnOk result (self.new ≡ put (name_word name.now ∷ []) self.old) }
    {
        self.constant(name.text.as_str())
    }

    /// Adds names.
    pub(crate) fn names(&mut self, names: &[Name]) -> Result<(), OutOfMemory>
        ensures { OnOk result (self.new ≡ put (names_words names.now) self.old) }
    {
        for name in names {
            self.name(name)?;
        }
        Ok(())
    }

    /// Adds a number.
    #[tactic(auto, unfolding(crate::specs::Printed::put_one, xdg_ast::specs::Canon::spelling))]
    pub fn number(&mut self, value: u32) -> Result<(), OutOfMemory>
        ensures { OnOk result (self.new ≡ put (number value ∷ []) self.old) }
    {
        self.lead(Kind::Number)?;
        let mut buffer = Buffer::new();
        self.text.push_str(buffer.format(value))
    }

    /// Adds a number of a cardinality.
    pub(crate) fn num(&mut self, num: &Num) -> Result<(), OutOfMemory>
        ensures { OnOk result (self.new ≡ put (number num.now.value ∷ []) self.old) }
    {
        self.number(num.value)
    }

    /// Adds numbers.
    pub(crate) fn nums(&mut self, nums: &[Num]) -> Result<(), OutOfMemory>
        ensures { OnOk result (self.new ≡ put (nums_words nums.now) self.old) }
    {
        for num in nums {
            self.num(num)?;
        }
        Ok(())
    }

    /// Adds what stands before a member of a conjunction or a disjunction.
    pub(crate) fn open(
        &mut self,
        sign: Kind,
        first: bool,
        brackets: bool,
    ) -> Result<(), OutOfMemory>
        ensures { OnOk result (self.new ≡ put (opening sign first brackets) self.old) }
    {
        if !first {
            self.mark(sign)?;
        }
        if brackets {
            self.mark(Kind::LeftParenthesis)?;
        }
        Ok(())
    }

    /// Adds what stands behind it.
    pub(crate) fn close(&mut self, brackets: bool) -> Result<(), OutOfMemory>
        ensures { OnOk result (self.new ≡ put (closing brackets) self.old) }
    {
        if brackets {
            self.mark(Kind::RightParenthesis)?;
        }
        Ok(())
    }
}
