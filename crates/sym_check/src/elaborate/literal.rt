//! Kinds and literals as they are written.
ghost use Rattle.sym_check.specs.Rules.Declarations.{unfinished};
ghost use Rattle.sym_check.specs.Elaborate.Declarations.{kind_of, literal_of, default_of};
ghost use Rattle.sym_check.specs.Checking.TypedPlans.{Answers, itself};
ghost use Rattle.sym_check.specs.declared.plan.script.KindPlan.TheVariants as kind_plan;

use crate::elaborate::error::CheckErr;
use crate::elaborate::name_uses::{enum_named, label_named, no_label};
use crate::elaborate::scope::Scope;
use crate::plan::script::KindPlan;
use std::alloc::Global;
use sym_base::{KindRef, Literal, Name, Value};

/// The kind that is written in the declaration of `own`.
pub(crate) fn kind_of(scope: &Scope, own: &Name, kind: &KindRef) -> Result<KindPlan, CheckErr>
    ensures { Answers itself (kind_of (unfinished scope.now own.now) kind.now) result }
{
    match kind {
        KindRef::Num => Ok(KindPlan::Num),
        KindRef::Word => Ok(KindPlan::Word),
        KindRef::Named(name) => {
            let of = enum_named(scope, own, name)?;
            Ok(KindPlan::Label(of))
        }
    }
}

fn num_literal(scope: &Scope, own: &Name, literal: &Literal) -> Result<Value, CheckErr>
    ensures { let seen = unfinished scope.now own.now in
        Answers itself (literal_of seen kind_plan.Num literal.now) result }
{
    match literal {
        Literal::Num { value, .. } => Ok(Value::Num(*value)),
        Literal::Text { at, .. } => Err(CheckErr::Kind { at: *at }),
        Literal::Named(name) => Err(no_label(scope, own, name)),
    }
}

fn word_literal(
    alloc: Global,
    scope: &Scope,
    own: &Name,
    literal: &Literal,
) -> Result<Value, CheckErr>
    ensures { let seen = unfinished scope.now own.now in
        Answers itself (literal_of seen kind_plan.Word literal.now) result }
{
    match literal {
        Literal::Num { at, .. } => Err(CheckErr::Kind { at: *at }),
        Literal::Text { text, .. } => Ok(Value::Word(text.copy(alloc)?)),
        Literal::Named(name) => Err(no_label(scope, own, name)),
    }
}

fn label_literal(scope: &Scope, own: &Name, of: u16, literal: &Literal) -> Result<Value, CheckErr>
    ensures { let seen = unfinished scope.now own.now in
        Answers itself (literal_of seen (kind_plan.Label of) literal.now) result }
{
    match literal {
        Literal::Num { at, .. } => Err(CheckErr::Kind { at: *at }),
        Literal::Text { at, .. } => Err(CheckErr::Kind { at: *at }),
        Literal::Named(name) => {
            let label = label_named(scope, own, of, name)?;
            Ok(Value::Label(label))
        }
    }
}

/// The value of a literal of the kind, in the declaration of `own`.
pub(crate) fn literal_of(
    alloc: Global,
    scope: &Scope,
    own: &Name,
    kind: KindPlan,
    literal: &Literal,
) -> Result<Value, CheckErr>
    ensures { let seen = unfinished scope.now own.now in
        Answers itself (literal_of seen kind literal.now) result }
{
    match kind {
        KindPlan::Num => num_literal(scope, own, literal),
        KindPlan::Word => word_literal(alloc, scope, own, literal),
        KindPlan::Label(of) => label_literal(scope, own, of, literal),
    }
}

/// The value of an empty text, where one is given.
pub(crate) fn default_of(
    alloc: Global,
    scope: &Scope,
    own: &Name,
    kind: KindPlan,
    default: &Option<Literal>,
) -> Result<Option<Value>, CheckErr>
    ensures { let seen = unfinished scope.now own.now in
        Answers itself (default_of seen kind default.now) result }
{
    match default {
        None => Ok(None),
        Some(literal) => Ok(Some(literal_of(alloc, scope, own, kind, literal)?)),
    }
}
