//! Laws of runs. The functions do nothing; their contracts are the laws. Depends on tsdb_state and tsdb_querying.
ghost use Rattle.std.specs.List.{AllByRecursion as Each};
ghost use Rattle.std.specs.Prelude.{◌≡◌, ℕ, List, [], ◌∷◌, ◌++◌, Some};
ghost use Rattle.tsdb_history.specs.Joining.{IsJoined};
ghost use Rattle.tsdb_history.specs.Prefixes.{StandsAfterPrefix};
ghost use Rattle.tsdb_base.specs.Lists.{Among};
ghost use Rattle.tsdb_history.specs.Replacing.{AreReplaced};
ghost use Rattle.tsdb_history.specs.Serves.{HasAnswered};
ghost use Rattle.tsdb_memory.specs.LogState.{log_of};
ghost use Rattle.tsdb_model.specs.History.{Entry, IsAllowed, IsChange, IsLegal};
ghost use Rattle.tsdb_model.specs.State as plain;
ghost use Rattle.tsdb_model.specs.declared.command.Command.{Command};
ghost use Rattle.tsdb_model.specs.declared.reply.Reply.{Reply};
ghost use Rattle.tsdb_outside.specs.Disk.{Image, in_slot};
ghost use Rattle.tsdb_outside.specs.Files.{StoredFile};
ghost use Rattle.tsdb_outside.specs.declared.disk.Slot.{Slot};
ghost use Rattle.tsdb_querying.specs.Core.{logged_of, next_of};
ghost use Rattle.tsdb_querying.specs.Loan.{Loan};
ghost use Rattle.tsdb_querying.specs.Serving.{HasFullCause, IsDrawn, IsServedBy, IsServing, StaysInPlace};
ghost use Rattle.tsdb_state.specs.Stores.{BytesByNumber, IsSound, StoreStandsFor, no_changes};

use tsdb_outside::{Disk, Files, Journal};
use tsdb_querying::Core;

/// Runs join: where a second run begins in the state that a stop left of a first one, its entries follow a prefix of the
/// first's, with the one change in doubt or without.
pub fn runs_join()
    ensures { (files : BytesByNumber) (bytes : List ℕ) (start middle last : plain.State) (first second : List Entry)
        → StandsAfterPrefix (StoreStandsFor files bytes) start first → StoreStandsFor files bytes middle
        → IsLegal middle second last → IsJoined start first second last }
{}

/// A new store is sound, and in the state without series: its slot is one closed gate, whatever a stop leaves.
pub fn a_new_store_is_sound<D: Disk>(_disk: &D)
    ensures { (slot : Slot) (files : BytesByNumber) (image : Image) → (D.state _disk.now).seen ≡ Some image
        → in_slot slot image ≡ 0 ∷ []
        → ((left : Image) → (D.state _disk.now).may_leave left → in_slot slot left ≡ 0 ∷ [])
        → IsSound slot (D.state _disk.now) files no_changes }
{}

/// What was answered so is answered so behind a turn that adds no entry, whatever it lends or takes back: where the log is
/// as it was, and where files of numbers that no file before has were put.
pub fn a_turn_adds_no_entry<J: Journal, F: Files>(_mid: &Core<J, F>, _new: &Core<J, F>)
    ensures still { (loans left : List (Loan _ _ _ _)) (first : _) (files : List StoredFile) (start : plain.State)
        (entries : List Entry) (so_far : HasAnswered loans first _mid.now files start entries)
        → StaysInPlace first _mid.now → StaysInPlace _mid.now _new.now
        → log_of (logged_of _new.now) ≡ log_of (logged_of _mid.now)
        → IsServing left _new.now (files ++ so_far.put) so_far.after so_far.doubt
        → HasAnswered left first _new.now files start entries }
    ensures put { (loans left : List (Loan _ _ _ _)) (first : _) (files : List StoredFile) (start : plain.State)
        (entries : List Entry) (so_far : HasAnswered loans first _mid.now files start entries)
        → StaysInPlace first _mid.now → StaysInPlace _mid.now _new.now → (numbers : List ℕ)
        → ((n : ℕ) → Among n numbers → IsDrawn first _new.now n)
        → Each (λ (file : StoredFile). ¬ Among file.number numbers) so_far.put
        → IsServedBy (λ n. Among n numbers) left _mid.now _new.now (files ++ so_far.put) so_far.after so_far.doubt
        so_far.after so_far.after
        → HasAnswered left first _new.now files start entries }
{}

/// The entry of a command that is no change is answered behind a turn after which the log is as it was.
pub fn a_turn_adds_an_entry<J: Journal, F: Files>(_mid: &Core<J, F>, _new: &Core<J, F>)
    ensures { (loans left : List (Loan _ _ _ _)) (first : _) (files : List StoredFile) (start : plain.State)
        (entries : List Entry) (so_far : HasAnswered loans first _mid.now files start entries)
        → StaysInPlace first _mid.now → StaysInPlace _mid.now _new.now
        → log_of (logged_of _new.now) ≡ log_of (logged_of _mid.now)
        → IsServing left _new.now (files ++ so_far.put) so_far.after so_far.doubt → (command : Command) (reply : Reply)
        → HasFullCause _new.now reply → ¬ IsChange command → IsAllowed so_far.after command reply
        → HasAnswered left first _new.now files start (entries ++ record { command = command; reply = reply } ∷ []) }
{}

/// Other replies of commands that are no change, each allowed at its place, leave what holds of a history.
pub fn replies_may_change<J: Journal, F: Files>(_core: &Core<J, F>)
    ensures { (loans : List (Loan _ _ _ _)) (first : _) (files : List StoredFile) (start : plain.State)
        (old new : List Entry) → AreReplaced (next_of _core.now) start old new
        → HasAnswered loans first _core.now files start old → HasAnswered loans first _core.now files start new }
{}
