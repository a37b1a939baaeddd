//! Finds the form that the tokens of a statement fit: walks the table of forms, and takes the tokens from the left.
//! Depends on `form`, `token`, `syntax`, `kept` and `fault`.
ghost use Rattle.std.specs.Prelude.{◌≡◌, IfOk, IfErr, List, Option, drop, length, option_map};
ghost use Rattle.std.specs.List.{list_any};
ghost use Rattle.tsdb_script.specs.declared.form.TheConstants.{FORMS};
ghost use Rattle.tsdb_script.specs.declared.token.Token.{Token};
ghost use Rattle.tsdb_script.specs.Forms.{is_at, places, statement_of, Fits, HasNoForm, HasNeededParts};
ghost use Rattle.tsdb_script.specs.Forms.{first_columns, first_conditions, first_names, first_values, first_word};
ghost use Rattle.tsdb_script.specs.Steps.{onto, FaultsWith};
ghost use Rattle.tsdb_script.specs.Tokens.{starts};
ghost use Rattle.tsdb_script.specs.Parse.{begins_at, called_at, column_at, comparison_at, condition_at, conditions_at};
ghost use Rattle.tsdb_script.specs.Parse.{end_at, fixed_at, form_at, items_at, list_at, operand_at, part_at};
ghost use Rattle.tsdb_script.specs.Parse.{parts_at, says, stands_at, statement_at, word_at, ParsesTo};

use crate::fault::LineFault;
use crate::form::{FORMS, Form, FormPlace, Keyword};
use crate::kept::{InsertLists, KeptLists, SyntaxParts};
use crate::syntax::{Comparison, Condition, Operand, Syntax, SyntaxColumn, SyntaxPart};
use crate::token::{Token, WordToken};
use std::alloc::Global;
use std::collections::VecDeque;
use tsdb_base::{List, Space};

/// The tokens that are left.
pub type Tokens<'a> = VecDeque<Token<'a>>;

/// The tokens fit no form.
const NO_FORM: LineFault = LineFault::Bad { kind: 3 };

/// `where`, before conditions.
const WHERE: FormPlace = FormPlace::Keyword(Keyword::Where);

/// `and`, between conditions.
const AND: FormPlace = FormPlace::Keyword(Keyword::And);

/// `time`, in a condition.
const TIME: FormPlace = FormPlace::Keyword(Keyword::Time);

/// The statement whose form the tokens fit. Where they fit none it is a fault of kind 3. The tokens are used up.
pub fn statement<'a>(
    alloc: Global,
    tokens: &mut Tokens<'a>,
    kept: &mut KeptLists<'a>,
) -> Result<Syntax<'a>, LineFault>
    ensures found { IfOk result (Fits tokens.old.items) }
    ensures parts { IfOk result HasNeededParts }
    ensures bad { IfErr result (FaultsWith (HasNoForm tokens.old.items)) }
{
    read_by_form(alloc, tokens, kept)
}

/// Reads the tokens by the one form that begins with their first words.
#[tactic(auto, unfolding(crate::specs::Parse::statement_at))]
fn read_by_form<'a>(
    alloc: Global,
    tokens: &mut Tokens<'a>,
    kept: &mut KeptLists<'a>,
) -> Result<Syntax<'a>, LineFault>
    ensures { ParsesTo (λ syntax. syntax) result (statement_at tokens.old.items) }
{
    let form = form_of(tokens).ok_or(NO_FORM)?;
    parts_of(
        alloc,
        form.places(),
        tokens,
        &mut kept.lists,
        &mut kept.parts,
    )?;
    Ok(made(alloc, form, &mut kept.parts))
}

/// The first form whose leading keywords the tokens begin with.
fn form_of(tokens: &Tokens) -> Option<Form>
    ensures { result ≡ form_at FORMS.now tokens.now.items }
{
    let mut forms = FORMS;
    while let Some((form, others)) = forms.split_first() {
        if begins(form.places(), tokens) {
            return Some(*form);
        }
        forms = others;
    }
    None
}

/// Whether a form begins with this token.
pub fn begins_form(token: &Token) -> bool
    ensures { result ≡ list_any (λ form. starts (λ place. is_at place token.now) (places form)) FORMS.now }
{
    let mut forms = FORMS;
    while let Some((form, others)) = forms.split_first() {
        if asks_first(token, form.places()) {
            return true;
        }
        forms = others;
    }
    false
}

/// Whether the first place asks for this token.
fn asks_first(token: &Token, places: &[FormPlace]) -> bool
    ensures { result ≡ starts (λ place. is_at place token.now) places.now }
{
    match places.first() {
        Some(place) => is_at(*place, token),
        None => false,
    }
}

/// Whether the tokens begin with the keywords that a form begins with.
fn begins(places: &[FormPlace], tokens: &Tokens) -> bool
    ensures { result ≡ begins_at places.now tokens.now.items }
{
    let mut row = places;
    let mut at = 0;
    while let Some((place, behind)) = row.split_first() {
        if !place.is_keyword() {
            return true;
        }
        if at >= tokens.len() || !stands(tokens, at, *place) {
            return false;
        }
        row = behind;
        at += 1;
    }
    true
}

/// The parts that stand at the places, in place of those of another line. It takes all tokens.
fn parts_of<'a>(
    alloc: Global,
    places: &[FormPlace],
    tokens: &mut Tokens<'a>,
    lists: &mut InsertLists<'a>,
    parts: &mut SyntaxParts<'a>,
) -> Result<(), LineFault>
    ensures { ParsesTo (λ _. parts.new.items) result (parts_at places.now tokens.old.items) }
{
    parts.clear();
    let mut row = places;
    while let Some((place, behind)) = row.split_first() {
        if let Some(part) = part(alloc, *place, tokens, lists)? {
            parts.push_back(part)?;
        }
        row = behind;
    }
    end(tokens)
}

/// Takes what stands at a place, and gives its part, where it has one.
#[tactic(auto, unfolding(crate::specs::Parse::part_at))]
fn part<'a>(
    alloc: Global,
    place: FormPlace,
    tokens: &mut Tokens<'a>,
    lists: &mut InsertLists<'a>,
) -> Result<Option<SyntaxPart<'a>>, LineFault>
    ensures { ParsesTo (λ part. (part, tokens.new.items)) result (part_at place tokens.old.items) }
{
    match place {
        FormPlace::Word => Ok(Some(SyntaxPart::Word(word(tokens)?))),
        FormPlace::Names => {
            let room = lists.for_names(alloc);
            Ok(Some(SyntaxPart::Names(list(room, FormPlace::Comma, tokens)?)))
        }
        FormPlace::Values => {
            let room = lists.for_values(alloc);
            Ok(Some(SyntaxPart::Values(list(room, FormPlace::Comma, tokens)?)))
        }
        FormPlace::Columns => {
            let room = Vec::new(alloc);
            Ok(Some(SyntaxPart::Columns(list(room, FormPlace::Comma, tokens)?)))
        }
        FormPlace::Where => Ok(Some(SyntaxPart::Conditions(conditions(alloc, tokens)?))),
        _ => {
            take_fixed(place, tokens)?;
            Ok(None)
        }
    }
}

/// Whether a token is the keyword or mark that a place asks for.
fn is_at(place: FormPlace, token: &Token) -> bool
    ensures { result ≡ is_at place token.now }
{
    match place {
        FormPlace::Keyword(keyword) => is_word(token, keyword.text()),
        FormPlace::Timestamp => is_word(token, b"timestamp") || is_word(token, b"time"),
        FormPlace::Open => matches!(token, Token::Open),
        FormPlace::Close => matches!(token, Token::Close),
        FormPlace::Comma => matches!(token, Token::Comma),
        FormPlace::Equal => matches!(token, Token::Equal),
        _ => false,
    }
}

/// Whether a token is this keyword, which is given in lower case.
fn is_word(token: &Token, name: &[u8]) -> bool
    ensures { result ≡ says name.now token.now }
{
    match token {
        Token::Word(word) => word.is(name),
        _ => false,
    }
}

/// Whether the token at this number is what a place asks for.
fn stands(tokens: &Tokens, at: usize, place: FormPlace) -> bool
    ensures { result ≡ stands_at place (drop at tokens.now.items) }
{
    match tokens.get(at) {
        Some(token) => is_at(place, token),
        None => false,
    }
}

/// Takes the token that a place asks for.
fn take_fixed(place: FormPlace, tokens: &mut Tokens) -> Result<(), LineFault>
    ensures { ParsesTo (λ _. tokens.new.items) result (fixed_at place tokens.old.items) }
{
    match tokens.pop_front() {
        Some(token) if is_at(place, &token) => Ok(()),
        _ => Err(NO_FORM),
    }
}

/// Takes one `;`, where it is there, and then there is nothing.
fn end(tokens: &mut Tokens) -> Result<(), LineFault>
    ensures { ParsesTo (λ r. r) result (end_at tokens.old.items) }
{
    match tokens.pop_front() {
        None => Ok(()),
        Some(Token::Semicolon) if tokens.is_empty() => Ok(()),
        _ => Err(NO_FORM),
    }
}

fn word<'a>(tokens: &mut Tokens<'a>) -> Result<WordToken<'a>, LineFault>
    ensures { ParsesTo (λ word. (word, tokens.new.items)) result (word_at tokens.old.items) }
{
    match tokens.pop_front() {
        Some(Token::Word(word)) => Ok(word),
        _ => Err(NO_FORM),
    }
}

fn comparison(tokens: &mut Tokens) -> Result<Comparison, LineFault>
    ensures { ParsesTo (λ comparison. (comparison, tokens.new.items)) result (comparison_at tokens.old.items) }
{
    match tokens.pop_front() {
        Some(Token::Less) => Ok(Comparison::Less),
        Some(Token::LessEqual) => Ok(Comparison::LessEqual),
        Some(Token::Greater) => Ok(Comparison::Greater),
        Some(Token::GreaterEqual) => Ok(Comparison::GreaterEqual),
        Some(Token::Equal) => Ok(Comparison::Equal),
        _ => Err(NO_FORM),
    }
}

/// The measurement in parentheses behind an aggregate.
#[tactic(auto, unfolding(crate::specs::Parse::called_at))]
fn aggregate_column<'a>(
    aggregate: WordToken<'a>,
    tokens: &mut Tokens<'a>,
) -> Result<SyntaxColumn<'a>, LineFault>
    ensures { ParsesTo (λ column. (column, tokens.new.items)) result (called_at aggregate.entry tokens.old.items) }
{
    take_fixed(FormPlace::Open, tokens)?;
    let measurement = word(tokens)?;
    take_fixed(FormPlace::Close, tokens)?;
    Ok(SyntaxColumn {
        aggregate: Some(aggregate),
        measurement,
    })
}

/// What a list is made of.
trait Listed<'a>: Drop + Sized {
    /// The item that tokens begin with, and the tokens behind it.
    ghost at: { List Token → Option (Self × List Token) };

    fn take(tokens: &mut Tokens<'a>) -> Result<Self, LineFault>
        ensures { ParsesTo (λ item. (item, tokens.new.items)) result (at tokens.old.items) };
}

impl<'a> Listed<'a> for WordToken<'a> {
    ghost at = { word_at };

    fn take(tokens: &mut Tokens<'a>) -> Result<WordToken<'a>, LineFault> {
        word(tokens)
    }
}

impl<'a> Listed<'a> for Operand<'a> {
    ghost at = { operand_at };

    fn take(tokens: &mut Tokens<'a>) -> Result<Operand<'a>, LineFault> {
        match tokens.pop_front() {
            Some(Token::Word(word)) => Ok(Operand::Word(word)),
            Some(Token::Text(text)) => Ok(Operand::Text(text)),
            _ => Err(NO_FORM),
        }
    }
}

impl<'a> Listed<'a> for SyntaxColumn<'a> {
    ghost at = { column_at };

    /// `M` or `W ( M )`
    #[tactic(auto, unfolding(crate::specs::Parse::column_at))]
    fn take(tokens: &mut Tokens<'a>) -> Result<SyntaxColumn<'a>, LineFault> {
        let first = word(tokens)?;
        if stands(tokens, 0, FormPlace::Open) {
            return aggregate_column(first, tokens);
        }
        Ok(SyntaxColumn {
            aggregate: None,
            measurement: first,
        })
    }
}

impl<'a> Listed<'a> for Condition<'a> {
    ghost at = { condition_at };

    /// `time` op `N`
    #[tactic(auto, unfolding(crate::specs::Parse::condition_at))]
    fn take(tokens: &mut Tokens<'a>) -> Result<Condition<'a>, LineFault> {
        take_fixed(TIME, tokens)?;
        let comparison = comparison(tokens)?;
        let number = word(tokens)?;
        Ok(Condition { comparison, number })
    }
}

/// One item at least, with this between them, in the place of what is in the room.
fn list<'a, P: Listed<'a>>(
    room: Vec<P>,
    between: FormPlace,
    tokens: &mut Tokens<'a>,
) -> Result<List<P>, LineFault>
    ensures { ParsesTo (λ items. (items, tokens.new.items)) result (list_at between P.at tokens.old.items) }
{
    let first = P::take(tokens)?;
    further(room, between, first, tokens)
}

/// The first item, and all that follow it.
fn further<'a, P: Listed<'a>>(
    room: Vec<P>,
    between: FormPlace,
    first: P,
    tokens: &mut Tokens<'a>,
) -> Result<List<P>, LineFault>
    ensures { ParsesTo (λ items. (items, tokens.new.items)) result
        (option_map (onto first) (items_at between P.at (length tokens.old.items) tokens.old.items)) }
{
    let mut items = room;
    items.clear();
    items.push(first)?;
    // Each item takes a token at least.
    let mut turns = tokens.len();
    while turns > 0 && stands(tokens, 0, between) {
        take_fixed(between, tokens)?;
        items.push(P::take(tokens)?)?;
        turns -= 1;
    }
    Ok(List::of(items))
}

/// The conditions of a `where`, or none.
#[tactic(auto, unfolding(crate::specs::Parse::conditions_at))]
fn conditions<'a>(alloc: Global, tokens: &mut Tokens<'a>) -> Result<List<Condition<'a>>, LineFault>
    ensures { ParsesTo (λ conditions. (conditions, tokens.new.items)) result (conditions_at tokens.old.items) }
{
    if !stands(tokens, 0, WHERE) {
        return Ok(List::of(Vec::new(alloc)));
    }
    take_fixed(WHERE, tokens)?;
    list(Vec::new(alloc), AND, tokens)
}

/// The statement of a form with these parts.
fn made<'a>(alloc: Global, form: Form, parts: &mut SyntaxParts<'a>) -> Syntax<'a>
    ensures { result ≡ statement_of form parts.old.items }
{
    match form {
        Form::Create => Syntax::Create {
            path: word_part(parts),
            data_type: word_part(parts),
            encoding: word_part(parts),
        },
        Form::Insert => Syntax::Insert {
            device: word_part(parts),
            names: names_part(alloc, parts),
            time: word_part(parts),
            values: values_part(alloc, parts),
        },
        Form::Delete => Syntax::Delete {
            path: word_part(parts),
            conditions: conditions_part(alloc, parts),
        },
        Form::Select => Syntax::Select {
            columns: columns_part(alloc, parts),
            device: word_part(parts),
            conditions: conditions_part(alloc, parts),
        },
        Form::Flush => Syntax::Flush,
        Form::CompactSequence => Syntax::CompactInner {
            space: Space::Sequence,
        },
        Form::CompactUnsequence => Syntax::CompactInner {
            space: Space::Unsequence,
        },
        Form::CompactCross => Syntax::CompactCross,
        Form::ShowFiles => Syntax::ShowFiles,
    }
}

/// Takes the first part, which is a word.
fn word_part<'a>(parts: &mut SyntaxParts<'a>) -> WordToken<'a>
    ensures word { result ≡ first_word parts.old.items }
    ensures rest { parts.new.items ≡ drop 1 parts.old.items }
{
    match parts.pop_front() {
        Some(SyntaxPart::Word(word)) => word,
        Some(_other) => WordToken::of(&[]),
        None => WordToken::of(&[]),
    }
}

fn names_part<'a>(alloc: Global, parts: &mut SyntaxParts<'a>) -> List<WordToken<'a>>
    ensures names { result ≡ first_names parts.old.items }
    ensures rest { parts.new.items ≡ drop 1 parts.old.items }
{
    match parts.pop_front() {
        Some(SyntaxPart::Names(names)) => names,
        Some(_other) => List::of(Vec::new(alloc)),
        None => List::of(Vec::new(alloc)),
    }
}

fn values_part<'a>(alloc: Global, parts: &mut SyntaxParts<'a>) -> List<Operand<'a>>
    ensures values { result ≡ first_values parts.old.items }
    ensures rest { parts.new.items ≡ drop 1 parts.old.items }
{
    match parts.pop_front() {
        Some(SyntaxPart::Values(values)) => values,
        Some(_other) => List::of(Vec::new(alloc)),
        None => List::of(Vec::new(alloc)),
    }
}

fn columns_part<'a>(alloc: Global, parts: &mut SyntaxParts<'a>) -> List<SyntaxColumn<'a>>
    ensures columns { result ≡ first_columns parts.old.items }
    ensures rest { parts.new.items ≡ drop 1 parts.old.items }
{
    match parts.pop_front() {
        Some(SyntaxPart::Columns(columns)) => columns,
        Some(_other) => List::of(Vec::new(alloc)),
        None => List::of(Vec::new(alloc)),
    }
}

fn conditions_part<'a>(alloc: Global, parts: &mut SyntaxParts<'a>) -> List<Condition<'a>>
    ensures conditions { result ≡ first_conditions parts.old.items }
    ensures rest { parts.new.items ≡ drop 1 parts.old.items }
{
    match parts.pop_front() {
        Some(SyntaxPart::Conditions(conditions)) => conditions,
        Some(_other) => List::of(Vec::new(alloc)),
        None => List::of(Vec::new(alloc)),
    }
}
