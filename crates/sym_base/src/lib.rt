//! Values, records, states and reports (`values`), the syntax tree of a script (`tree`), and the
//! stores and sinks through which bytes come in and go out (`edge`).
#![tactic(auto)]

mod edge;
pub mod laws;
mod limits;
mod tree;
mod values;

pub use edge::mem_sink::MemSink;
pub use edge::mem_store::MemStore;
pub use edge::read::{ReadErr, read_all};
pub use edge::sink::{Sink, SinkErr};
pub use edge::store::{Failed, Store};
pub use edge::sure_sink::SureSink;
pub use edge::sure_store::SureStore;
pub use edge::write::write_all;
pub use limits::{
    CELLS_MAX, CHUNK_MAX, CHUNKS_MAX, COLUMNS_MAX, DEPTH_MAX, ENUMS_MAX, FIELDS_MAX, FILE_MAX,
    FILE_MAX_DEFAULT, FILES_MAX, GROUP_FIELDS_MAX, LABELS_MAX, NAME_MAX, NUM_MAX, OPERANDS_MAX,
    PARAMETERS_MAX, PARTS_MAX, PATHS_COUNTED, PATHS_MAX, READ_PIECE, SCRIPT_MAX, STATEMENTS_MAX,
    TESTS_MAX, WORKERS_MAX,
};
pub use tree::compare::Compare;
pub use tree::declaration::{
    CellDecl, ColumnDecl, ColumnDecls, EnumDecl, EnumDecls, FieldDecl, FieldDecls, KindRef,
    Literal, Param, Params, Part, Parts, StateDecl, StateDecls, TestDecl, TestDecls,
};
pub use tree::expression::{BinOp, Expr, Exprs};
pub use tree::name::{Name, Names};
pub use tree::script::Script;
pub use tree::statement::{Stmt, Stmts};
pub use values::element::Element;
pub use values::memory::NoMemory;
pub use values::record::Record;
pub use values::report::{Column, Columns, ReportFault};
pub use values::sequence::{Plain, Sequence};
pub use values::small_list::SmallList;
pub use values::state::{Cell, Cells, Fault, FaultKind, Outcome, State};
pub use values::text::{Text, Texts, Words};
pub use values::value::{Fields, Key, Nums, Value, Values};
