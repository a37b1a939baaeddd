//! The laws of loans. A function here does nothing; its contract says a law. Depends on `loan` and tsdb_core.
ghost use Rattle.std.specs.List.{AllByRecursion as Each};
ghost use Rattle.std.specs.Prelude.{◌↔◌, List, [], ◌∷◌};
ghost use Rattle.tsdb_base.specs.Lists.{IsWithOne};
ghost use Rattle.tsdb_core.specs.Compactions.{IsHandedOut};
ghost use Rattle.tsdb_outside.specs.Files.{Store};
ghost use Rattle.tsdb_serving.specs.Flushing.{IsReady};
ghost use Rattle.tsdb_serving.specs.Loans.{CanEnd, CanServe, KeepsAll, KeepsLent, Lends, TakesBack, job_in};
ghost use Rattle.tsdb_serving.specs.declared.loan.Loan.{Loan as LoanOf};

use crate::loan::Loan;
use tsdb_core::Core;
use tsdb_outside::{Files, Journal};

/// A core is ready exactly where it keeps for no loan; and it can serve, whatever it keeps for.
pub fn a_core_with_loans_can_serve<J: Journal, F: Files>(_core: &Core<J, F>)
    ensures none { (store : Store) → IsReady store _core.now ↔ KeepsLent F.Right.file store [] _core.now }
    ensures some { (store : Store) (loans : List (LoanOf _ _ _ _)) → KeepsLent F.Right.file store loans _core.now
        → CanServe store _core.now }
{}

/// A turn that keeps all that is out keeps what its loans need.
pub fn loans_stay<J: Journal, F: Files>(_old: &Core<J, F>, _new: &Core<J, F>)
    ensures { (store : Store) (loans : List (LoanOf _ _ _ _)) → KeepsAll store _old.now _new.now
        → KeepsLent F.Right.file store loans _old.now → KeepsLent F.Right.file store loans _new.now }
{}

/// A loan joins those that are out; and one that is taken back leaves them, wherever it stood.
pub fn a_loan_comes_and_goes<J: Journal, F: Files>(
    _old: &Core<J, F>,
    _new: &Core<J, F>,
    _one: &Loan<F>,
)
    ensures comes { (store : Store) (loans : List (LoanOf _ _ _ _)) → Lends F.Right.file store _one.now _old.now _new.now
        → Each IsHandedOut (job_in _one.now) → KeepsLent F.Right.file store loans _old.now
        → KeepsLent F.Right.file store (_one.now ∷ loans) _new.now }
    ensures goes { (store : Store) (others loans : List (LoanOf _ _ _ _)) → IsWithOne _one.now others loans
        → TakesBack F.Right.file store _one.now _old.now _new.now → KeepsLent F.Right.file store loans _old.now
        → KeepsLent F.Right.file store others _new.now }
{}

/// Each loan can be ended, whichever came before it and behind it.
pub fn a_loan_can_be_ended<J: Journal, F: Files>(_core: &Core<J, F>, _one: &Loan<F>)
    ensures { (store : Store) (others loans : List (LoanOf _ _ _ _)) → IsWithOne _one.now others loans
        → KeepsLent F.Right.file store loans _core.now → CanEnd F.Right.file _core.now _one.now }
{}
