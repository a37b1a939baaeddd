//! Laws of the world that a store stands for. The functions do nothing; their contracts are the laws.
ghost use Rattle.std.specs.List.{AllByRecursion};
ghost use Rattle.std.specs.Prelude.{◌≡◌, ◌++◌, ℕ, List, [], None};
ghost use Rattle.std.specs.FinMap.{empty};
ghost use Rattle.tsdb_model.specs.World.{World};
ghost use Rattle.tsdb_state.specs.Places.{PointPlace};
ghost use Rattle.tsdb_state.specs.Jobs.{EntriesMatch, NumbersInOrder};
ghost use Rattle.tsdb_state.specs.NewStore.{new_store, opened};
ghost use Rattle.tsdb_state.specs.Order.{IsInOrder};
ghost use Rattle.tsdb_state.specs.State.{EngineState, KnownFiles, StoreState, ToldContents};
ghost use Rattle.tsdb_state.specs.StoreOrder.{StoreInOrder};
ghost use Rattle.tsdb_state.specs.Worlds.{StandsFor, value_at_place};

/// A store stands for one world at most.
pub fn a_store_stands_for_one_world()
    ensures { (told : ToldContents) (state : StoreState) (one other : World)
        → StandsFor told state one → StandsFor told state other → one ≡ other }
{}

/// A store in order stands for a world.
pub fn a_store_in_order_stands_for_a_world()
    ensures { (told : ToldContents) (state : StoreState)
        → StoreInOrder told state → (world : World) × StandsFor told state world }
{}

/// A new store is in order, and stands for the world without series.
pub fn a_new_store_is_in_order()
    ensures order { (told : ToldContents) → StoreInOrder told new_store }
    ensures world { (told : ToldContents) → StandsFor told new_store empty }
{}

/// What is told of a file that is not listed, and what is kept of it, is free: a state in order stays so, and has the
/// same values. So a caller may add what a new file has before its commit. Nothing may be in doubt then; an append
/// settles that first.
pub fn what_is_told_elsewhere_is_free()
    ensures order { (told other : ToldContents) (known entries : KnownFiles) (named : List ℕ) (state : EngineState)
        → IsInOrder told known named state → state.doubt ≡ None
        → AllByRecursion (λ file. told file.number ≡ other file.number)
        (state.store.sequence ++ state.store.unsequence)
        → AllByRecursion (λ file. known file.number ≡ entries file.number)
        (state.store.sequence ++ state.store.unsequence)
        → IsInOrder other entries named state }
    ensures values { (told other : ToldContents) (state : StoreState) (place : PointPlace)
        → AllByRecursion (λ file. told file.number ≡ other file.number) state.sequence
        → AllByRecursion (λ file. told file.number ≡ other file.number) state.unsequence
        → value_at_place told state place ≡ value_at_place other state place }
{}

/// A store in order makes an engine in order, with nothing out, over the next number of a file.
pub fn an_opened_engine_is_in_order()
    ensures { (told : ToldContents) (known : KnownFiles) (named : List ℕ) (next : ℕ) (state : StoreState)
        → StoreInOrder told state
        → NumbersInOrder named next ((state.sequence ++ state.unsequence) ++ []) []
        → EntriesMatch told known (state.sequence ++ state.unsequence)
        → IsInOrder told known named (opened next state) }
{}
