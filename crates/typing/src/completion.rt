//! Whether a loop may end.

ghost use Rattle.std.specs.Prelude.{◌≡◌};
ghost use Rattle.syntax.specs.Views.{expr_tree};
ghost use Rattle.typing.specs.Completion.{is_true_tree};

use syntax::Expr;

/// Whether a condition is the literal `true`, in any parentheses.
pub(crate) fn is_true_literal(e: &Expr) -> bool
    ensures { result ≡ is_true_tree (expr_tree e.now) }
{
    match e {
        Expr::Truth(truth, _) => *truth,
        Expr::Paren(inner, _) => is_true_literal(inner),
        _ => false,
    }
}
