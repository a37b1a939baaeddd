//! Reads the words of the command line. Depends on `word`, `asked`, `part` and `seen`.
ghost use Rattle.std.specs.Prelude.{◌≡◌, ◌↔◌, ◌∷◌, ℕ, [], List, IfSome, IfNone, IsTrue, codes};
ghost use Rattle.tsdb_run.specs.WordSteps.{Completes, FollowsSeen, nothing};
ghost use Rattle.tsdb_run.specs.Words as model;
ghost use Rattle.tsdb_run.specs.Words.{AreWords, AreOptionsWithinLimits};

use crate::asked::Asked;
use crate::part::next_part;
use crate::seen::Seen;
use crate::word::Word;

/// What the words ask for.
pub fn read_words<'a>(words: &'a [Word]) -> Option<Asked<'a>>
    ensures found { IfSome result (λ asked. AreWords words.now asked) }
    ensures none { IfNone result ((asked : model.Asked) → ¬ AreWords words.now asked) }
    ensures limits { IfSome result (λ asked. AreOptionsWithinLimits asked) }
{
    let (first, behind) = words.split_first()?;
    if !is_run(first.bytes()) {
        return None;
    }
    parts_of(behind)?.asked()
}

/// Whether a word is `run`.
fn is_run(word: &[u8]) -> bool
    ensures { IsTrue result ↔ (word.now ≡ codes "run") }
{
    matches!(word, [b'r', b'u', b'n'])
}

/// What the parts that these words are ask for so far.
fn parts_of<'a>(words: &'a [Word]) -> Option<Seen<'a>>
    ensures found { IfSome result (λ seen. (asked : model.Asked)
        → FollowsSeen nothing words.now asked ↔ Completes seen [] asked) }
    ensures none { IfNone result ((asked : model.Asked) → ¬ FollowsSeen nothing words.now asked) }
{
    let mut seen = Seen::nothing();
    let mut rest = words;
    while !rest.is_empty() {
        let (part, behind) = next_part(rest)?;
        if !seen.take(part) {
            return None;
        }
        rest = behind;
    }
    Some(seen)
}
