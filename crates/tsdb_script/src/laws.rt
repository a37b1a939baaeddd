//! Laws of scripts, each a call that does nothing.
ghost use Rattle.std.specs.Prelude.{◌≡◌, ◌↔◌, ℕ, ◌<◌, All, List, ◌++◌, length};
ghost use Rattle.tsdb_model.specs.Commands.{IsWellFormed};
ghost use Rattle.tsdb_script.specs.declared.numbered.Numbered.{Numbered};
ghost use Rattle.tsdb_script.specs.declared.syntax.Syntax.{Syntax};
ghost use Rattle.tsdb_script.specs.declared.token.Token.{Token};
ghost use Rattle.tsdb_script.specs.Forms.{Fits};
ghost use Rattle.tsdb_base.specs.Limits.{max_script_bytes};
ghost use Rattle.tsdb_script.specs.Reading.{IsFirstBadLine, IsScript, IsScriptWithinLimits};
ghost use Rattle.tsdb_script.specs.Tokens.{AreTokens, HasNoTokens};

/// A line has one list of tokens, or a fault of one kind.
pub fn one_reading()
    ensures tokens { (line : List ℕ) (one other : List Token) → AreTokens line one → AreTokens line other
        → one ≡ other }
    ensures kind { (line : List ℕ) (one other : ℕ) → HasNoTokens line one → HasNoTokens line other → one ≡ other }
    ensures either { (line : List ℕ) (tokens : List Token) (kind : ℕ) → AreTokens line tokens
        → ¬ HasNoTokens line kind }
{}

/// Tokens fit the form of at most one statement.
pub fn one_statement()
    ensures { (tokens : List Token) (one other : Syntax) → Fits tokens one → Fits tokens other → one ≡ other }
{}

/// The bytes of a script have one list of commands, or one first bad line with a fault of one kind.
pub fn one_script()
    ensures commands { (bytes : List ℕ) (one other : List Numbered) → IsScript bytes one → IsScript bytes other
        → one ≡ other }
    ensures bad { (bytes : List ℕ) (line kind other_line other_kind : ℕ) → IsFirstBadLine bytes line kind
        → IsFirstBadLine bytes other_line other_kind → (line ≡ other_line) × (kind ≡ other_kind) }
    ensures either { (bytes : List ℕ) (script : List Numbered) (line kind : ℕ) → IsScript bytes script
        → ¬ IsFirstBadLine bytes line kind }
{}

/// A script keeps to the limits, and its commands are well formed.
pub fn good_script()
    ensures limits { (bytes : List ℕ) (script : List Numbered) → IsScript bytes script
        → IsScriptWithinLimits bytes script }
    ensures well_formed { (bytes : List ℕ) (script : List Numbered) → IsScript bytes script
        → All (λ numbered. IsWellFormed numbered.command) script }
{}

/// Whoever reads one byte more than a script may have needs no byte behind it.
pub fn cut_script()
    ensures bad { (front rest : List ℕ) (line kind : ℕ) → max_script_bytes < length front
        → IsFirstBadLine front line kind ↔ IsFirstBadLine (front ++ rest) line kind }
    ensures long { (front rest : List ℕ) (script : List Numbered) → max_script_bytes < length front
        → ¬ IsScript (front ++ rest) script }
{}
