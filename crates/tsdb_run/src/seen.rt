//! The parts that were read, as what they ask for. Depends on `part` and `asked`.
ghost use Rattle.std.specs.Prelude.{◌≡◌, ◌↔◌, ◌∷◌, [], List, IfSome, IfNone, IsTrue};
ghost use Rattle.tsdb_run.specs.WordSteps.{Completes, KeepsFirst, nothing, argument_of};
ghost use Rattle.tsdb_run.specs.Words as model;

use crate::asked::Asked;
use crate::part::WordPart;

/// The points of a pair where `--pair` is not given.
const DEFAULT_PAIR_POINTS: u64 = 10_000;

/// The workers of a kind where `--workers` is not given.
const DEFAULT_WORKERS: u64 = 1;

/// What was read so far.
#[derive(Drop)]
pub struct Seen<'a> {
    directory: Option<&'a [u8]>,
    pair_points: Option<u64>,
    workers: Option<u64>,
    ended: bool,
}

impl<'a> Seen<'a> {
    /// Nothing was read.
    pub fn nothing() -> Seen<'a>
        ensures { result ≡ nothing }
    {
        Seen {
            directory: None,
            pair_points: None,
            workers: None,
            ended: false,
        }
    }

    /// Takes one more part, if it may stand here.
    pub fn take(&mut self, part: WordPart<'a>) -> bool
        ensures { (parts : List model.Argument) (asked : model.Asked)
            → Completes self.old (argument_of part.entry ∷ parts) asked
            ↔ (IsTrue result × Completes self.new parts asked) }
    {
        match part {
            WordPart::Directory(word) => keep(&mut self.directory, word),
            WordPart::Pair(number) => !self.ended && keep(&mut self.pair_points, number),
            WordPart::Workers(number) => !self.ended && keep(&mut self.workers, number),
            WordPart::End => self.end(),
        }
    }

    /// Takes a lone `--`, if it is the first.
    fn end(&mut self) -> bool
        ensures { (parts : List model.Argument) (asked : model.Asked) → Completes self.old (model.End ∷ parts) asked
            ↔ (IsTrue result × Completes self.new parts asked) }
    {
        let is_first = !self.ended;
        self.ended = true;
        is_first
    }

    /// What is asked for, if no part follows.
    pub fn asked(&self) -> Option<Asked<'a>>
        ensures found { IfSome result (Completes self.now []) }
        ensures none { IfNone result ((asked : model.Asked) → ¬ Completes self.now [] asked) }
    {
        let directory = self.directory?;
        Some(Asked::of(
            directory,
            self.pair_points.unwrap_or(DEFAULT_PAIR_POINTS),
            self.workers.unwrap_or(DEFAULT_WORKERS),
        ))
    }
}

/// Keeps a value, if none is kept yet.
fn keep<T: Copy>(kept: &mut Option<T>, value: T) -> bool
    ensures { KeepsFirst kept.old kept.new value result }
{
    let is_first = kept.is_none();
    if is_first {
        *kept = Some(value);
    }
    is_first
}
