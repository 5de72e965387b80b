//! The rules of scripts, the plan of one that keeps them, and what a plan means.
#![tactic(auto)]

mod checked;
mod elaborate;
mod evaluate;
pub mod laws;
mod path_bound;
mod plan;

pub use checked::{CheckErr, Checked, check};
pub use evaluate::arithmetic::{Arith, product};
pub use evaluate::calls::{fixed, number, pair, test};
pub use evaluate::fixed_value::{FixedValue, value_of};
pub use evaluate::known::{Known, known_in};
pub use evaluate::numbers::{number_of, pair_of};
pub use evaluate::pairs::Pair;
pub use evaluate::truth::answer_at;
pub use plan::condition::Cond;
pub use plan::expression::{
    ArithOp, Fixed, FixedList, LabelOf, Line, Num, Term, WordOf, copy_fixed_list,
};
pub use plan::range::Range;
pub use plan::script::{
    CellPlan, CellPlans, ColumnPlan, ColumnPlans, EnumPlan, EnumPlans, FieldNos, FieldPlan,
    FieldPlans, KindPlan, KindPlans, Plan, TestPlan, TestPlans, copy_column_plans, copy_test_plans,
    enum_labels,
};
pub use plan::show::{Show, ShowFn};
pub use plan::statement::{Do, Dos};
