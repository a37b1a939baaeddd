//! The laws of a core that was recovered, and of runs that follow one another. The functions do nothing; their contracts
//! are the laws. Depends on tsdb_outside and tsdb_recover.
ghost use Rattle.std.specs.Prelude.{◌≡◌, ℕ, List, [], ◌∷◌, None, Some};
ghost use Rattle.tsdb_history.specs.Joining.{IsFollowed, IsJoined};
ghost use Rattle.tsdb_history.specs.Prefixes.{StandsAfterPrefix};
ghost use Rattle.tsdb_model.specs.History.{Entry, IsLegal};
ghost use Rattle.tsdb_model.specs.State as plain;
ghost use Rattle.tsdb_base.specs.Causes.{Rose};
ghost use Rattle.tsdb_outside.specs.Disk.{Image};
ghost use Rattle.tsdb_outside.specs.Files.{StoredFile};
ghost use Rattle.tsdb_history.specs.Serving.{IsServing};
ghost use Rattle.tsdb_recover.specs.OpenedStore.{IsRecovered};
ghost use Rattle.tsdb_run.specs.Headline.{HasRun};
ghost use Rattle.tsdb_run.specs.Stops.{IsStopped};
ghost use Rattle.tsdb_run.specs.Store.{IsSoundPlace, contents, new_state};

use tsdb_outside::{Files, Journal, Place};
use tsdb_recover::Core;

/// A recovered core is in the state of its store, beside the stored files. So it can serve commands.
pub(crate) fn a_recovered_core_serves<J: Journal, F: Files>(_core: &Core<J, F>)
    ensures { (bytes : List ℕ) (stored : List StoredFile) (at : plain.State) → IsRecovered _core.now bytes stored at
        → IsServing [] _core.now stored at None }
{}

/// Where a second run begins on the sound store that a first one left, its entries follow those of the first, with the
/// one change in doubt or without.
pub fn a_run_follows_another<P: Place>(_before: &P, _between: &P)
    ensures { (files : List StoredFile) (start middle last : plain.State) (first second : List Entry) (before now : ℕ)
        → HasRun files start first (P.state _before.now)
        (contents (P.state _between.now) (P.stored _between.now)) (Rose before now)
        → IsSoundPlace (contents (P.state _between.now) (P.stored _between.now)) middle → IsLegal middle second last
        → IsFollowed start first second last }
{}

/// A stop at any moment of a run leaves a sound store, in the state after a prefix of the run's entries, or in that with
/// the one change in doubt; and the entries of a run on it follow such a prefix. That each file which the log lists is
/// kept at that moment is a premise: the calls of the core say it.
pub fn a_stop_leaves_a_sound_store<P: Place>(_before: &P, _behind: &P, _left: &P)
    ensures sound { (start : plain.State) (first : List Entry) (before now : ℕ)
        → IsStopped (contents (P.state _before.now) (P.stored _before.now))
        (contents (P.state _behind.now) (P.stored _behind.now)) (contents (P.state _left.now) (P.stored _left.now))
        start first (Rose before now)
        → StandsAfterPrefix (IsSoundPlace (contents (P.state _left.now) (P.stored _left.now))) start first }
    ensures joined { (start middle last : plain.State) (first second : List Entry) (before now : ℕ)
        → IsStopped (contents (P.state _before.now) (P.stored _before.now))
        (contents (P.state _behind.now) (P.stored _behind.now)) (contents (P.state _left.now) (P.stored _left.now))
        start first (Rose before now)
        → IsSoundPlace (contents (P.state _left.now) (P.stored _left.now)) middle → IsLegal middle second last
        → IsJoined start first second last }
{}

/// A new place has a sound store, in the state without series: slot A is one closed gate, whatever a stop leaves, and no
/// file is stored.
pub fn a_new_place_is_sound<P: Place>(_place: &P)
    ensures { (image : Image) → (P.state _place.now).seen ≡ Some image → image.a ≡ 0 ∷ []
        → ((left : Image) → (P.state _place.now).may_leave left → left.a ≡ 0 ∷ []) → P.stored _place.now ≡ Some []
        → IsSoundPlace (contents (P.state _place.now) (P.stored _place.now)) new_state }
{}
