//! Statements and grammars.

ghost use Rattle.std.specs.Prelude.{◌≡◌, ℕ, List, [], ◌∷◌, IfOk, OnOk, flat_map};
ghost use Rattle.xdg_ast.specs.Derives.{Reads};
ghost use Rattle.xdg_ast.specs.Words.{mark};
ghost use Rattle.xdg_ast.specs.Trees.{name_word, type_words};
ghost use Rattle.xdg_ast.specs.Canon.{class_param_words, body_words, part_words, principle_words, indented, statement_lines, canon};
ghost use Rattle.xdg_print.specs.Again.{IsReadAgain};
ghost use Rattle.xdg_print.specs.Printed.{put, put_lines, name_pairs_words, dim_lines};

use crate::printer::Printer;
use std::alloc::Global;
use xdg_ast::{
    ClassParam, DimPart, DimPartKind, Expr, Grammar, Kind, Name, Pair, Params, StatementKind, Term,
    TypeTerm,
};
use xdg_base::{List, OutOfMemory, Text};

impl Printer {
    /// Adds what the dimensions of a principle are.
    fn dims(&mut self, pairs: &[Pair<Name>]) -> Result<(), OutOfMemory>
        ensures { OnOk result (self.new ≡ put (name_pairs_words pairs.now) self.old) }
    {
        for pair in pairs {
            self.name(&pair.key)?;
            self.mark(Kind::Colon)?;
            self.name(&pair.value)?;
        }
        Ok(())
    }

    /// Adds what stands in the braces of a use of a principle.
    #[tactic(auto, using(crate::proofs::WrittenStatements::put_principle_none, crate::proofs::WrittenStatements::put_principle_some))]
    fn principle(
        &mut self,
        alloc: Global,
        dims: &[Pair<Name>],
        args: &Option<List<Pair<Term>>>,
    ) -> Result<(), OutOfMemory>
        ensures { OnOk result (self.new ≡ put (principle_words dims.now args.now) self.old) }
    {
        self.mark(Kind::Dims)?;
        self.mark(Kind::LeftBrace)?;
        self.dims(dims)?;
        self.mark(Kind::RightBrace)?;
        match args {
            None => Ok(()),
            Some(pairs) => {
                self.mark(Kind::Args)?;
                self.terms(&Params::none(alloc), pairs.as_slice())
            }
        }
    }

    /// Adds a part of a dimension.
    #[tactic(auto, unfolding(xdg_ast::specs::Canon::part_words), using(crate::proofs::Written::put_braces))]
    fn part(&mut self, alloc: Global, part: &DimPartKind) -> Result<(), OutOfMemory>
        ensures { OnOk result (self.new ≡ put (part_words part.now) self.old) }
    {
        match part {
            DimPartKind::DefType(name, given) => {
                self.mark(Kind::DefType)?;
                self.name(name)?;
                self.type_term(&given.kind)
            }
            DimPartKind::LabelType(given) => self.type_part(Kind::DefLabelType, given),
            DimPartKind::AttrsType(given) => self.type_part(Kind::DefAttrsType, given),
            DimPartKind::EntryType(given) => self.type_part(Kind::DefEntryType, given),
            DimPartKind::Output(name) => self.named(Kind::Output, name),
            DimPartKind::UseOutput(name) => self.named(Kind::UseOutput, name),
            DimPartKind::UsePrinciple { name, dims, args } => {
                self.named(Kind::UsePrinciple, name)?;
                self.mark(Kind::LeftBrace)?;
                self.principle(alloc, dims.as_slice(), args)?;
                self.mark(Kind::RightBrace)
            }
        }
    }

    /// Adds a keyword and a type.
    fn type_part(&mut self, keyword: Kind, given: &TypeTerm) -> Result<(), OutOfMemory>
        ensures { OnOk result (self.new ≡ put (mark keyword ∷ type_words given.now.kind) self.old) }
    {
        self.mark(keyword)?;
        self.type_term(&given.kind)
    }

    /// Adds a keyword and a name.
    fn named(&mut self, keyword: Kind, name: &Name) -> Result<(), OutOfMemory>
        ensures { OnOk result (self.new ≡ put (mark keyword ∷ name_word name.now ∷ []) self.old) }
    {
        self.mark(keyword)?;
        self.name(name)
    }

    /// Adds the line of a part of a dimension.
    fn part_line(&mut self, alloc: Global, part: &DimPart) -> Result<(), OutOfMemory>
        ensures { OnOk result (self.new ≡ put_lines (indented (part_words part.now.kind) ∷ []) self.old) }
    {
        self.begin("  ")?;
        self.part(alloc, &part.kind)?;
        self.end()
    }

    /// Adds the lines of a definition of a dimension.
    fn dim_lines(
        &mut self,
        alloc: Global,
        name: &Name,
        parts: &[DimPart],
    ) -> Result<(), OutOfMemory>
        ensures { OnOk result (self.new ≡ put_lines (dim_lines name.now parts.now) self.old) }
    {
        self.begin("")?;
        self.named(Kind::DefDim, name)?;
        self.mark(Kind::LeftBrace)?;
        self.end()?;
        for part in parts {
            self.part_line(alloc, part)?;
        }
        self.begin("")?;
        self.mark(Kind::RightBrace)?;
        self.end()
    }

    /// Adds parameters of a class.
    fn class_params(&mut self, alloc: Global, params: &[ClassParam]) -> Result<(), OutOfMemory>
        ensures { OnOk result (self.new ≡ put (flat_map class_param_words params.now) self.old) }
    {
        for param in params {
            self.class_param(alloc, param)?;
        }
        Ok(())
    }

    /// Adds a parameter of a class.
    fn class_param(&mut self, alloc: Global, param: &ClassParam) -> Result<(), OutOfMemory>
        ensures { OnOk result (self.new ≡ put (class_param_words param.now) self.old) }
    {
        self.name(&param.name)?;
        match &param.preset {
            None => Ok(()),
            Some(term) => {
                self.mark(Kind::Colon)?;
                self.term(&Params::none(alloc), &term.kind)
            }
        }
    }

    /// Adds the body of a class with these parameters.
    #[tactic(auto, using(crate::proofs::Put::put_append))]
    fn body(&mut self, params: &Params, body: &Expr) -> Result<(), OutOfMemory>
        ensures { OnOk result (self.new ≡ put (body_words params.now body.now) self.old) }
    {
        self.mark(Kind::LeftBrace)?;
        self.expr(params, &body.kind)?;
        self.mark(Kind::RightBrace)
    }

    /// Adds the lines of a statement.
    #[tactic(auto, using(crate::proofs::WrittenStatements::statement_steps))]
    fn statement(&mut self, alloc: Global, statement: &StatementKind) -> Result<(), OutOfMemory>
        ensures { OnOk result (self.new ≡ put_lines (statement_lines statement.now) self.old) }
    {
        match statement {
            StatementKind::DefDim(name, parts) => self.dim_lines(alloc, name, parts.as_slice()),
            StatementKind::UseDim(name) => {
                self.begin("")?;
                self.named(Kind::UseDim, name)?;
                self.end()
            }
            StatementKind::DefClass { name, params, body } => {
                self.begin("")?;
                self.named(Kind::DefClass, name)?;
                self.class_params(alloc, params.as_slice())?;
                self.body(&Params::of(alloc, params.as_slice())?, body)?;
                self.end()
            }
            StatementKind::DefEntry(body) => {
                self.begin("")?;
                self.mark(Kind::DefEntry)?;
                self.body(&Params::none(alloc), body)?;
                self.end()
            }
        }
    }
}

/// The canonical text of a grammar. It says what the tree says, in one way only and without comments:
///
/// - Lines. Each statement has a line, which ends with a line feed. Of a `defdim` this line goes up to its `{`; each part
///   has a line of its own behind an indent of two spaces, and `}` has the last line. No line is empty.
/// - Spaces. One space stands between two words of a line, but none behind `{`, `(`, `[` and `#`, none before `}`, `)`, `]`,
///   `:`, `!`, `?`, `*` and `+`, and none between `tuple`, `set`, `iset`, `valency` or `map` and its `(`.
/// - Constants. A constant is a name if its characters make one and no keyword. Any other stands between quotation marks,
///   with a backslash before each quotation mark and each backslash in it. In the body of a class a term with the
///   characters of a parameter that is not that parameter is quoted, too. Numbers are in decimal digits.
/// - Brackets. A `&` stands between two members of a conjunction and a `|` between two of a disjunction. Of a conjunction, a
///   member that is a conjunction or a disjunction stands in parentheses; of a disjunction, one that is a disjunction.
/// - Braces without content stand where the tree has them: behind `args`, and behind the name of a class that is used.
pub fn print(alloc: Global, grammar: &Grammar) -> Result<Text, OutOfMemory>
    ensures canonical { IfOk result (λ text. text ≡ canon grammar.now) }
    ensures again { (bytes : List ℕ) → Reads bytes grammar.now → IfOk result (λ text. IsReadAgain text grammar.now) }
{
    let mut printer = Printer::new(alloc);
    for statement in grammar.statements.as_slice() {
        printer.statement(alloc, &statement.kind)?;
    }
    Ok(printer.into_text())
}
