//! The rule of each kind of expression, lock and statement: its type and core node, where its parts have theirs, or a
//! fault. The core program of a program, or its first type fault.
#![tactic(auto)]

mod body;
mod calls;
mod class_bodies;
mod columns;
mod completion;
mod elaboration_laws;
mod exprs;
mod fault;
mod first;
mod gather;
mod lineage;
mod lock;
mod lookup;
mod make;
mod members;
mod methods;
mod nodes;
mod numbers;
mod order;
mod rule_laws;
mod rules;
mod scope;
mod simple_stmts;
mod stmt_rules;
mod stmts;
mod types;

pub use calls::{call_rule, new_rule};
pub use elaboration_laws::{alone_laws, core_program_laws, first_fault_laws, typed_law};
pub use fault::TypeFault;
pub use first::FirstFault;
pub use lock::lock_path;
pub use lookup::field_named;
pub use make::elaborate;
pub use rule_laws::plain_rules;
pub use rules::{
    binary_rule, field_rule, get_rule, least_number, neg_rule, not_rule, number_rule, value,
    variable_rule,
};
pub use scope::{Bound, Slot, find};
pub use stmt_rules::{
    MOST_LOCALS, condition_rule, do_rule, field_target, local_node, local_value, note_declaration,
    note_missing_return, print_rule, put_rule, return_rule, set_rule, start_rule, target_rule,
    type_rule, value_rule,
};
pub use types::{BoxedExpr, ExprType, TypedExpr, class_in};
