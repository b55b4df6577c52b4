//! What the actions on a thread's own frame come to.
ghost use Rattle.std.specs.Prelude.{◌≡◌, pos, [], ◌∷◌, None};
ghost use Rattle.core_program.specs.declared.types.CoreOp.TheVariants.{Sub, Div};
ghost use Rattle.core_program.specs.declared.types.UnaryOp.TheVariants.{Neg};
ghost use Rattle.core_program.specs.Core.{Expr, Stmt, WhileS};
ghost use Rattle.state.specs.declared.value.Fault.TheVariants as fault;
ghost use Rattle.state.specs.declared.value.StepKind.TheVariants.{Both, Other};
ghost use Rattle.state.specs.declared.value.Value.TheVariants.{Int, Null, Ref};
ghost use Rattle.state.specs.States.{Running};
ghost use Rattle.state.specs.Work.{Ex, St, Push, Load, Store, Drop, Unary, Binary, AndThen, OrElse, Choose, Loop, Print};
ghost use Rattle.semantics.specs.Step.{Moves, Nothing, Prints, act};
ghost use Rattle.core_examples.specs.Seen.{four_fields, seven, minus_two, yes_value, no_value, here, sees, does, gives_alone, goes_by, faults_with, frame_with, rest};

/// Operands: pushed, read from slots and stored there, dropped.
pub fn what_operands_do()
    ensures push { does (sees 0 None) (seven ∷ []) (Push minus_two) ≡ gives_alone (minus_two ∷ seven ∷ []) }
    ensures load { does (sees 0 None) [] (Load 2) ≡ gives_alone (Int (pos 2) ∷ []) }
    ensures load_past_the_slots { does (sees 0 None) [] (Load 3) ≡ faults_with fault.Null [] }
    ensures store { does (sees 0 None) (seven ∷ minus_two ∷ []) (Store 1) ≡ Moves (record {
      kind = Both;
      thread = Running (record (frame_with (minus_two ∷ [])) { slots = Ref here ∷ seven ∷ Int (pos 2) ∷ []; work = rest } ∷ []);
      change = Nothing;
    }) }
    ensures store_above_another_frame { act four_fields (sees 0 None) 0 (frame_with (seven ∷ [])) (frame_with [] ∷ []) rest (Store 2) ≡ Moves (record {
      kind = Both;
      thread = Running (record (frame_with []) { slots = Ref here ∷ Int (pos 1) ∷ seven ∷ []; work = rest } ∷ frame_with [] ∷ []);
      change = Nothing;
    }) }
    ensures drop { does (sees 0 None) (seven ∷ minus_two ∷ []) Drop ≡ gives_alone (minus_two ∷ []) }
{}

/// Operators take their operands in the order in which these were evaluated: the first lies under the second.
pub fn what_operators_do()
    ensures unary { does (sees 0 None) (minus_two ∷ seven ∷ []) (Unary Neg) ≡ gives_alone (Int (pos 2) ∷ seven ∷ []) }
    ensures binary { does (sees 0 None) (minus_two ∷ seven ∷ []) (Binary Sub) ≡ gives_alone (Int (pos 9) ∷ []) }
    ensures zero_divisor { does (sees 0 None) (Int (pos 0) ∷ seven ∷ []) (Binary Div) ≡ faults_with fault.Zero (Int (pos 0) ∷ seven ∷ []) }
    ensures print { does (sees 0 None) (seven ∷ minus_two ∷ []) Print ≡ goes_by Other (minus_two ∷ []) rest (Prints (pos 7)) }
{}

/// The right operand of `&&` is evaluated after true alone, that of `||` after false alone.
pub fn what_operands_decide()
    ensures and_goes_on { (e : Expr) → does (sees 0 None) (yes_value ∷ []) (AndThen e) ≡ goes_by Both [] (Ex e ∷ rest) Nothing }
    ensures and_ends { (e : Expr) → does (sees 0 None) (no_value ∷ []) (AndThen e) ≡ gives_alone (no_value ∷ []) }
    ensures or_ends { (e : Expr) → does (sees 0 None) (yes_value ∷ []) (OrElse e) ≡ gives_alone (yes_value ∷ []) }
    ensures or_goes_on { (e : Expr) → does (sees 0 None) (no_value ∷ []) (OrElse e) ≡ goes_by Both [] (Ex e ∷ rest) Nothing }
{}

/// An `if` goes on with its first statement after true and with its second one after false; a loop goes on with its body and itself,
/// or is left.
pub fn what_conditions_decide()
    ensures first { (s u : Stmt) → does (sees 0 None) (yes_value ∷ []) (Choose s u) ≡ goes_by Both [] (St s ∷ rest) Nothing }
    ensures second { (s u : Stmt) → does (sees 0 None) (no_value ∷ []) (Choose s u) ≡ goes_by Both [] (St u ∷ rest) Nothing }
    ensures again { (e : Expr) (s : Stmt) → does (sees 0 None) (yes_value ∷ []) (Loop e s) ≡ goes_by Both [] (St s ∷ St (WhileS e s) ∷ rest) Nothing }
    ensures left { (e : Expr) (s : Stmt) → does (sees 0 None) (no_value ∷ []) (Loop e s) ≡ goes_by Both [] rest Nothing }
{}
